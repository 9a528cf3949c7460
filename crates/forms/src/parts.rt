// The smallest parts of a form, each read from what is ahead. None says that another sign stands there.
ghost use Rattle.std.specs.Prelude.{◌≡◌};
ghost use Rattle.std.specs.Option.{option_map};
ghost use Rattle.std.specs.Str.{bytes_eq};
ghost use Rattle.forms.specs.Signs.{ahead, parsed};
ghost use Rattle.forms.specs.Parts.{open_in, close_in, number_in, word_in, name_in, kind_of_word, kind_in, field_in};

use crate::signs::next;
use interface::Kind;
use tokens::{Lexer, Token};

// The equality of words by which the forms are defined.
pub fn same(a: &[u8], b: &[u8]) -> bool
    ensures { result ≡ bytes_eq a.now b.now }
{
    a == b
}

pub fn open(lexer: &mut Lexer) -> Option<()>
    ensures { parsed result (ahead lexer.new) ≡ open_in (ahead lexer.old) }
{
    matches!(next(lexer), Some(Token::Open(_))).then_some(())
}

pub fn close(lexer: &mut Lexer) -> Option<()>
    ensures { parsed result (ahead lexer.new) ≡ close_in (ahead lexer.old) }
{
    matches!(next(lexer), Some(Token::Close(_))).then_some(())
}

pub fn number(lexer: &mut Lexer) -> Option<u64>
    ensures { parsed result (ahead lexer.new) ≡ number_in (ahead lexer.old) }
{
    match next(lexer) {
        Some(Token::Number(_, value)) => Some(value),
        _ => None,
    }
}

pub fn word<'a>(lexer: &mut Lexer<'a>) -> Option<&'a [u8]>
    ensures { parsed (option_map (λ x. x.now) result) (ahead lexer.new) ≡ word_in (ahead lexer.old) }
{
    match next(lexer) {
        Some(Token::Word(piece)) => Some(piece.bytes),
        _ => None,
    }
}

// The given word.
pub fn name(lexer: &mut Lexer, wanted: &[u8]) -> Option<()>
    ensures { parsed result (ahead lexer.new) ≡ name_in wanted.now (ahead lexer.old) }
{
    let word = word(lexer)?;
    same(word, wanted).then_some(())
}

// A word of one letter, so more than a conversion of its bytes.
fn kind_of_word(word: &[u8]) -> Option<Kind>
    ensures { result ≡ kind_of_word word.now }
{
    match word {
        [letter] => Kind::try_from(char::from(*letter)).ok(),
        _ => None,
    }
}

pub fn kind(lexer: &mut Lexer) -> Option<Kind>
    ensures { parsed result (ahead lexer.new) ≡ kind_in (ahead lexer.old) }
{
    let word = word(lexer)?;
    kind_of_word(word)
}

// A number under its name, in brackets.
pub fn field(lexer: &mut Lexer, wanted: &[u8]) -> Option<u64>
    ensures { parsed result (ahead lexer.new) ≡ field_in wanted.now (ahead lexer.old) }
{
    open(lexer)?;
    name(lexer, wanted)?;
    let value = number(lexer)?;
    close(lexer)?;
    Some(value)
}
