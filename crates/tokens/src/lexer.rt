// The lexer: the next token of a line, or the fault that stands there.
ghost use Rattle.std.specs.Prelude.{◌≡◌, ◌-◌, ◌≤◌, length, take, drop};
ghost use Rattle.tokens.specs.Lexemes.{seen, started, at_start, next_lexeme, moved, fault_number, fault_place};

use crate::numbers::number;
use crate::runs::{Class, run_end};
use std::marker::Model;

// A part of the text, and the place of its first byte.
#[derive(Clone, Copy)]
pub struct Piece<'a> {
    pub at: usize,
    pub bytes: &'a [u8],
}

// A bracket, a run of letters, or a run of digits with its value.
#[derive(Clone, Copy)]
pub enum Token<'a> {
    Open(Piece<'a>),
    Close(Piece<'a>),
    Word(Piece<'a>),
    Number(Piece<'a>, u64),
}

// What is no token, by its place.
#[derive(Clone, Copy, PartialEq, Eq, Debug)]
pub enum Fault {
    // a byte that no token has
    UnknownByte(usize),
    // a number above 10^18 or with a leading zero
    BadNumber(usize),
}

impl Fault {
    // The number by which the fault is known.
    pub fn number(self) -> u8
        ensures { result ≡ fault_number self }
    {
        // A match, since a variant that holds a place has no number of its own.
        match self {
            Fault::UnknownByte(_) => 22,
            Fault::BadNumber(_) => 23,
        }
    }

    // Where the byte, or the number's first digit, stands.
    pub fn place(self) -> usize
        ensures { result ≡ fault_place self }
    {
        match self {
            Fault::UnknownByte(at) => at,
            Fault::BadNumber(at) => at,
        }
    }
}

// A text, and how far it is read.
#[derive(Drop)]
pub struct Lexer<'a> {
    text: &'a [u8],
    at: usize,
}

impl<'a> Model for Lexer<'a> {
    ghost use Rattle.tokens.specs.Lexemes.{Cursor, started};

    ghost Value = { Cursor };

    ghost view = { λ l. started l.text.now l.at };
}

fn cut<'a>(text: &'a [u8], at: usize, end: usize) -> Piece<'a>
    requires from { at ≤ end }
    requires to { end ≤ length text.now }
    ensures place { result.at ≡ at }
    ensures bytes { result.bytes.now ≡ take (end - at) (drop at text.now) }
{
    Piece {
        at,
        bytes: &text[at..end],
    }
}

impl<'a> Lexer<'a> {
    // Begins at the text's first byte.
    pub fn new(text: &'a [u8]) -> Lexer<'a>
        ensures { result ≡ at_start text.now }
    {
        Lexer { text, at: 0 }
    }

    // Begins at a place of the text.
    pub fn starting_at(text: &'a [u8], at: usize) -> Lexer<'a>
        ensures { result ≡ started text.now at }
    {
        Lexer { text, at }
    }

    // The next token of the text, none at its end. A fault stays where it is.
    pub fn next(&mut self) -> Result<Option<Token<'a>>, Fault>
        ensures answer { seen result ≡ next_lexeme self.old }
        ensures after { self.new ≡ moved self.old }
    {
        let text = self.text;
        let at = run_end(text, self.at, Class::Space);
        let Some(byte) = text.get(at).copied() else {
            self.at = at;
            return Ok(None);
        };
        if byte == b'(' {
            self.at = at + 1;
            return Ok(Some(Token::Open(cut(text, at, at + 1))));
        }
        if byte == b')' {
            self.at = at + 1;
            return Ok(Some(Token::Close(cut(text, at, at + 1))));
        }
        if Class::Letter.has(byte) {
            let end = run_end(text, at, Class::Letter);
            self.at = end;
            return Ok(Some(Token::Word(cut(text, at, end))));
        }
        if !Class::Digit.has(byte) {
            return Err(Fault::UnknownByte(at));
        }
        let end = run_end(text, at, Class::Digit);
        let digits = cut(text, at, end);
        let value = number(digits.bytes).ok_or(Fault::BadNumber(at))?;
        self.at = end;
        Ok(Some(Token::Number(digits, value)))
    }
}
