// The classes of bytes, and the runs of one class.
ghost use Rattle.std.specs.Prelude.{◌≡◌, ◌+◌, ◌≤◌, length, drop};
ghost use Rattle.std.specs.List.{prefix_len};
ghost use Rattle.tokens.specs.Classes.{in_class};

// An enum, since the definition of a lexeme names the classes too; a closure would need such a name beside it at each call.
#[derive(Clone, Copy)]
pub enum Class {
    Space,
    Letter,
    Digit,
}

impl Class {
    pub fn has(self, byte: u8) -> bool
        ensures { result ≡ in_class self byte }
    {
        match self {
            Class::Space => byte == b' ',
            Class::Letter => byte.is_ascii_alphabetic(),
            Class::Digit => byte.is_ascii_digit(),
        }
    }
}

// How many bytes of a class a text begins with.
fn run(text: &[u8], class: Class) -> usize
    ensures count { result ≡ prefix_len (in_class class) text.now }
    ensures within { result ≤ length text.now }
{
    text.iter().take_while(|byte| class.has(**byte)).count()
}

// Where the longest run of a class ends that begins at a place.
pub fn run_end(text: &[u8], from: usize, class: Class) -> usize
    ensures end { result ≡ from + prefix_len (in_class class) (drop from text.now) }
    ensures within { from ≤ length text.now → result ≤ length text.now }
{
    match text.get(from..) {
        Some(rest) => from + run(rest, class),
        None => from,
    }
}
