// The fault of a line: what it is, where it stands, and which layer found it.
ghost use Rattle.std.specs.Prelude.{◌≡◌, Some};
ghost use Rattle.forms.specs.Faults.{kind_of, unknown_text, number, NumbersNameKinds, IsTokenFault, form_fault, length_fault};

use std::error::Error;
use std::fmt;
use tokens::Fault as TokenFault;

// The most bytes that a text may have.
pub const LONGEST: usize = 65_536;

// The layers that a line goes through, in their order.
#[derive(Clone, Copy, PartialEq, Eq, Debug)]
pub enum Layer {
    Token,
    Form,
    Setting,
}

// What is wrong, with the number by which each fault is known.
#[derive(Clone, Copy, PartialEq, Eq, Debug)]
pub enum FaultKind {
    // what a setting call refuses, 1 to 7
    WrongPhase = 1,
    DomainTaken = 2,
    BadShare = 3,
    BadCount = 4,
    VertexBank = 5,
    BadEdge = 6,
    NoPlaces = 7,
    // a byte that no token has
    UnknownByte = 22,
    // a number above 10^18 or with a leading zero
    BadNumber = 23,
    // a form that is unknown, unclosed, missing or out of place
    BadForm = 24,
    // a text of more than 65,536 bytes
    TooLong = 25,
}

// A number that no kind of fault has.
#[derive(Clone, Copy, PartialEq, Eq, Debug)]
pub struct UnknownNumber(pub u8);

// The kind that has the number, as that of a setting call's refusal.
impl TryFrom<u8> for FaultKind {
    type Error = UnknownNumber;

    ghost try_from_gives = { λ number res. res ≡ kind_of number };

    fn try_from(number: u8) -> Result<FaultKind, UnknownNumber> {
        match number {
            1 => Ok(FaultKind::WrongPhase),
            2 => Ok(FaultKind::DomainTaken),
            3 => Ok(FaultKind::BadShare),
            4 => Ok(FaultKind::BadCount),
            5 => Ok(FaultKind::VertexBank),
            6 => Ok(FaultKind::BadEdge),
            7 => Ok(FaultKind::NoPlaces),
            22 => Ok(FaultKind::UnknownByte),
            23 => Ok(FaultKind::BadNumber),
            24 => Ok(FaultKind::BadForm),
            25 => Ok(FaultKind::TooLong),
            _ => Err(UnknownNumber(number)),
        }
    }
}

impl fmt::Display for UnknownNumber {
    ghost output = { λ _. Some unknown_text };

    fn fmt<W: fmt::Write>(&self, f: &mut fmt::Formatter<W>) -> fmt::Result {
        f.write_str("a number that no kind of fault has")
    }
}

impl Error for UnknownNumber {}

#[derive(Clone, Copy, PartialEq, Eq, Debug)]
pub struct Fault {
    pub kind: FaultKind,
    // the byte, from 0, where its token or else its line begins
    pub byte: usize,
    pub layer: Layer,
}

impl Fault {
    // A kind is made of its number, and of no other.
    #[tactic(auto, using(crate::proofs::Numbers::numbers_name_kinds))]
    pub fn number(self) -> u8
        ensures value { result ≡ number self }
        ensures law { NumbersNameKinds }
    {
        self.kind as u8
    }

    // No good form, in the line that begins at a byte.
    pub fn form(line: usize) -> Fault
        ensures { result ≡ form_fault line }
    {
        Fault {
            kind: FaultKind::BadForm,
            byte: line,
            layer: Layer::Form,
        }
    }

    pub fn length() -> Fault
        ensures { result ≡ length_fault }
    {
        Fault {
            kind: FaultKind::TooLong,
            byte: LONGEST,
            layer: Layer::Token,
        }
    }
}

// A fault of a token keeps its number and its place.
impl From<TokenFault> for Fault {
    ghost from_gives = { λ token fault. IsTokenFault token fault };

    fn from(token: TokenFault) -> Fault {
        let kind = match token {
            TokenFault::UnknownByte(_) => FaultKind::UnknownByte,
            TokenFault::BadNumber(_) => FaultKind::BadNumber,
        };
        Fault {
            kind,
            byte: token.place(),
            layer: Layer::Token,
        }
    }
}
