// What the grammar sees of a line: its tokens from the front.
ghost use Rattle.std.specs.Prelude.{◌≡◌};
ghost use Rattle.std.specs.Option.{option_map};
ghost use Rattle.tokens.specs.Lexemes.{started};
ghost use Rattle.forms.specs.Signs.{scanned, ahead, token_sign, parsed, uncons};

use tokens::{Fault, Lexer, Token};

// The first fault among the tokens of a text from a place on.
pub fn token_fault(text: &[u8], at: usize) -> Option<Fault>
    ensures { result ≡ (scanned (started text.now at)).fault }
{
    let mut lexer = Lexer::starting_at(text, at);
    'token: loop {
        match lexer.next() {
            Ok(Some(_)) => {}
            Ok(None) => return None,
            Err(fault) => return Some(fault),
        }
    }
}

// The next token; none at the end of the line, or at a fault.
pub fn next<'a>(lexer: &mut Lexer<'a>) -> Option<Token<'a>>
    ensures { parsed (option_map token_sign result) (ahead lexer.new) ≡ uncons (ahead lexer.old) }
{
    lexer.next().ok().flatten()
}
