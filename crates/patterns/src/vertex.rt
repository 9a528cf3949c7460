// A vertex of a lane, and how an event moves it on.
ghost use Rattle.std.specs.Prelude.{◌≡◌};
ghost use Rattle.std.specs.Option.{option_map};
ghost use Rattle.patterns.specs.Moves.{moved, done_tick};

use crate::tick::Tick;
use interface::{Access, Kind};

// Where a vertex stands in its lane's round.
#[derive(Clone, Copy)]
pub enum VertexState {
    // it has not left in this round
    Still,
    // it has left, and its Done has not come
    Flying,
    // its Done came at this tick
    Done(Tick),
}

#[derive(Clone, Copy)]
pub enum VertexEvent {
    // the vertex is due, and leaves
    Due,
    // its Done comes at this tick
    Done(Tick),
    // the lane begins its next round
    NewRound,
}

#[derive(Clone, Copy)]
pub struct Vertex {
    pub bank: u8,
    pub kind: Kind,
    pub state: VertexState,
}

impl Vertex {
    // Moves the vertex on where the event concerns its state, and leaves it otherwise.
    pub fn advance(&mut self, event: VertexEvent)
        ensures { self.new ≡ moved event self.old }
    {
        match (self.state, event) {
            (VertexState::Still, VertexEvent::Due) => self.state = VertexState::Flying,
            (VertexState::Flying, VertexEvent::Done(tick)) => self.state = VertexState::Done(tick),
            (VertexState::Done(_), VertexEvent::NewRound) => self.state = VertexState::Still,
            _ => {}
        }
    }

    pub fn access(&self) -> Access
        ensures { result ≡ record { bank = self.now.bank; kind = self.now.kind } }
    {
        Access {
            bank: self.bank,
            kind: self.kind,
        }
    }

    // The tick of its Done in this round, once it has come.
    pub fn done_tick(&self) -> Option<Tick>
        ensures { option_map (λ t. t.number) result ≡ done_tick self.now.state }
    {
        match self.state {
            VertexState::Still => None,
            VertexState::Flying => None,
            VertexState::Done(tick) => Some(tick),
        }
    }
}
