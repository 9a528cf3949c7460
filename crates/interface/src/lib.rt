// What every controller of the card has in common: requests, events, refusals, and the interface.
#![tactic(auto)]

ghost use Rattle.std.specs.Prelude.{◌≡◌, ℕ, ◌^◌, ◌<◌, List, [], ◌∷◌, Some, Option as Optional};
ghost use Rattle.interface.specs.Kinds.{kind_of, letter_of, access_of, unknown_text};
ghost use Rattle.interface.specs.Meaning.{Meaning, Held, Call, after, number, refused, first, left_of, in_range, take_refusal, step_refusal};
ghost use Rattle.interface.specs.Lawful.{Lawful};
ghost use Rattle.interface.specs.declared.Event.{Event as ReadyEvent};

use std::error::Error;
use std::fmt;

#[derive(Clone, Copy, PartialEq, Eq, Debug)]
pub enum Kind {
    Read,
    Write,
}

// A letter that names no kind.
#[derive(Clone, Copy, PartialEq, Eq, Debug)]
pub struct UnknownKind(pub char);

// R names a read, W a write.
impl TryFrom<char> for Kind {
    type Error = UnknownKind;

    ghost try_from_gives = { λ letter res. res ≡ kind_of letter };

    fn try_from(letter: char) -> Result<Kind, UnknownKind> {
        match letter {
            'R' => Ok(Kind::Read),
            'W' => Ok(Kind::Write),
            _ => Err(UnknownKind(letter)),
        }
    }
}

// The letter that names it.
impl fmt::Display for Kind {
    ghost output = { λ kind. Some (letter_of kind ∷ []) };

    fn fmt<W: fmt::Write>(&self, f: &mut fmt::Formatter<W>) -> fmt::Result {
        f.write_str(match self {
            Kind::Read => "R",
            Kind::Write => "W",
        })
    }
}

impl fmt::Display for UnknownKind {
    ghost output = { λ _. Some unknown_text };

    fn fmt<W: fmt::Write>(&self, f: &mut fmt::Formatter<W>) -> fmt::Result {
        f.write_str("a letter that names no kind")
    }
}

impl Error for UnknownKind {}

// What a request asks of the card: a bank, and what is done there.
#[derive(Clone, Copy, PartialEq, Eq, Debug)]
pub struct Access {
    pub bank: u8,
    pub kind: Kind,
}

// What a controller is asked to do. While it is held, its slot tells it apart.
#[derive(Clone, Copy, PartialEq, Eq, Debug)]
pub struct Request {
    pub slot: u16,
    pub domain: u8,
    pub bank: u8,
    pub kind: Kind,
}

impl Request {
    // Slot at most 511, domain and bank at most 7.
    pub fn in_range(self) -> bool
        ensures { result ≡ in_range self }
    {
        self.slot < 512 && self.domain < 8 && self.bank < 8
    }

    pub fn access(self) -> Access
        ensures { result ≡ access_of self }
    {
        Access {
            bank: self.bank,
            kind: self.kind,
        }
    }
}

// What a controller reports of a slot: its request went to the card, and the card has finished it.
#[derive(Clone, Copy, PartialEq, Eq, Debug)]
pub enum Event {
    Issue(u16),
    Done(u16),
}

// Why a controller refuses a call, with the number by which each refusal is known.
#[derive(Clone, Copy, PartialEq, Eq, Debug)]
pub enum Refusal {
    // slot above 511, domain above 7 or bank above 7
    OutOfRange = 17,
    // the slot is held
    SlotHeld = 18,
    // as many requests are held as there are places
    Full = 19,
    // a step while events are ready
    EventsReady = 20,
}

impl Refusal {
    pub fn number(self) -> u8
        ensures { result ≡ number self }
    {
        self as u8
    }
}

// A controller: it takes requests, and steps with the card's ticks; the events of a step are collected before the next.
pub trait Controller {
    // what each call does to a state, and what is read from a state
    ghost meaning: { Meaning (List ℕ) };

    // the state that the controller is in
    ghost state: { Self → List ℕ };

    // the held requests, in the order of taking
    ghost held: { Self → List Held };

    // the events that are ready, in the order in which they are collected
    ghost ready: { Self → List ReadyEvent };

    // the steps left of each slot that is held
    ghost steps_left: { Self → ℕ → Optional ℕ };

    // Returns to the beginning state.
    fn reset(&mut self)
        ensures { state self.new ≡ after meaning Call.reset (state self.old) };

    // How many requests can be held at once.
    fn places(&self) -> u8
        ensures { result ≡ meaning.places (state self.now) };

    // Holds a request.
    fn take(&mut self, request: Request) -> Result<(), Refusal>
        ensures answer { refused result ≡ take_refusal meaning (state self.old) request }
        ensures after { state self.new ≡ after meaning (Call.take request) (state self.old) };

    // Lets one tick pass.
    fn step(&mut self) -> Result<(), Refusal>
        ensures answer { refused result ≡ step_refusal meaning (state self.old) }
        ensures after { state self.new ≡ after meaning Call.step (state self.old) };

    // Hands out the first ready event.
    fn collect(&mut self) -> Option<Event>
        ensures answer { result ≡ first (meaning.ready (state self.old)) }
        ensures after { state self.new ≡ after meaning Call.collect (state self.old) };

    ghost lawful: { Lawful meaning };

    ghost held_is_read: { (c : Self) → held c ≡ meaning.held (state c) };

    ghost ready_is_read: { (c : Self) → ready c ≡ meaning.ready (state c) };

    ghost steps_left_is_read: { (c : Self) → steps_left c ≡ left_of (meaning.held (state c)) };
}

// A controller whose span fits 64 bits, so that a layer above it can count the steps since a taking.
pub trait CountableSpan: Controller {
    ghost span_fits: { (s : List ℕ) → Self.Controller.meaning.span s < 2 ^ 64 };
}
