// What the scheduler writes and answers, and its refusals.
#![tactic(auto)]

ghost use Rattle.std.specs.Prelude.{◌≡◌, Some};
ghost use Rattle.model.specs.Refusals.{number, refusal_of};
ghost use Rattle.model.specs.Texts.{letter_text, line_text, notice_text};

use interface::{Access, Kind};
use patterns::setting::LaneRefusal;
use std::fmt;

// What a line says of a request: the controller took it, it went to the card, the card has finished it.
#[derive(Clone, Copy, PartialEq, Eq, Debug)]
pub enum Letter {
    T,
    I,
    D,
}

impl fmt::Display for Letter {
    ghost output = { λ letter. Some (letter_text letter) };

    fn fmt<W: fmt::Write>(&self, f: &mut fmt::Formatter<W>) -> fmt::Result {
        f.write_str(match self {
            Letter::T => "T",
            Letter::I => "I",
            Letter::D => "D",
        })
    }
}

// A line of the bus. The row of a fake is 0.
#[derive(Clone, Copy, PartialEq, Eq, Debug)]
pub struct Line {
    pub letter: Letter,
    pub tick: u64,
    pub domain: u8,
    pub slot: u16,
    pub bank: u8,
    pub kind: Kind,
    pub row: u16,
}

impl fmt::Display for Line {
    ghost output = { λ line. Some (line_text line) };

    fn fmt<W: fmt::Write>(&self, f: &mut fmt::Formatter<W>) -> fmt::Result {
        let Line {
            letter,
            tick,
            domain,
            slot,
            bank,
            kind,
            row,
        } = *self;
        write!(
            f,
            "({letter} (tick {tick}) (domain {domain}) (slot {slot}) (bank {bank}) {kind} (row {row}))"
        )
    }
}

// That the request with this serial of its domain is done.
#[derive(Clone, Copy, PartialEq, Eq, Debug)]
pub struct Notice {
    pub tick: u64,
    pub domain: u8,
    pub serial: u64,
}

impl fmt::Display for Notice {
    ghost output = { λ notice. Some (notice_text notice) };

    fn fmt<W: fmt::Write>(&self, f: &mut fmt::Formatter<W>) -> fmt::Result {
        let Notice {
            tick,
            domain,
            serial,
        } = *self;
        write!(f, "(N (tick {tick}) (domain {domain}) (serial {serial}))")
    }
}

// A request in the queue of a protected domain.
#[derive(Clone, Copy, PartialEq, Eq, Debug)]
pub struct Waiting {
    pub bank: u8,
    pub kind: Kind,
    pub row: u16,
    pub serial: u64,
}

impl Waiting {
    pub fn access(self) -> Access
        ensures { result ≡ record { bank = self.bank; kind = self.kind } }
    {
        Access {
            bank: self.bank,
            kind: self.kind,
        }
    }
}

// The row and the serial of a real request.
#[derive(Clone, Copy, PartialEq, Eq, Debug)]
pub struct Real {
    pub row: u16,
    pub serial: u64,
}

// What a slot carries to the card: a real request, or nothing real, which makes it a fake.
pub type Payload = Option<Real>;

// Why the scheduler refuses a call, with the number by which each refusal is known.
#[derive(Clone, Copy, PartialEq, Eq, Debug)]
pub enum Refusal {
    // a setting or begin after begin, a submit or tick before it
    WrongPhase = 1,
    // domain above 7, open already, or protected where open is wanted
    DomainTaken = 2,
    // share not 1 to 16
    BadShare = 3,
    // more than 8 lanes in the domain, or not 1 to 8 vertices
    BadCount = 4,
    // a vertex's bank above 7
    VertexBank = 5,
    // a bad edge or a rest above 1,000
    BadEdge = 6,
    // shares and vertices together above places
    NoPlaces = 7,
    // domain not set
    DomainUnset = 8,
    // the request's bank above 7
    RequestBank = 9,
    // row not 1 to 65,535
    BadRow = 10,
    // serial at 10^18
    LastSerial = 11,
    // protected, and no vertex has that bank and kind
    NoVertex = 12,
    // protected, and 16 wait
    QueueFull = 13,
    // open, and the slot whose turn it is is held
    SlotHeld = 14,
    // fewer than 96 lines or 32 notices in the buffers
    SmallBuffer = 15,
    // the tick is 10^18; for first, a number above that
    LastTick = 16,
}

impl Refusal {
    pub fn number(self) -> u8
        ensures { result ≡ number self }
    {
        self as u8
    }
}

// A lane that is refused has the scheduler's call refused.
impl From<LaneRefusal> for Refusal {
    ghost from_gives = { λ lane refusal. refusal ≡ refusal_of lane };

    fn from(lane: LaneRefusal) -> Refusal {
        match lane {
            LaneRefusal::Domain => Refusal::DomainTaken,
            LaneRefusal::Count => Refusal::BadCount,
            LaneRefusal::Bank => Refusal::VertexBank,
            LaneRefusal::Edge => Refusal::BadEdge,
            LaneRefusal::Places => Refusal::NoPlaces,
        }
    }
}
