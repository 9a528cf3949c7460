// What the slots have in flight, and what an event of the controller does to them.
ghost use Rattle.std.specs.Prelude.{◌≡◌, Some};
ghost use Rattle.patterns.specs.declared.vertex.VertexEvent.TheVariants.{Due};
ghost use Rattle.board.specs.Boards.{advanced_board};
ghost use Rattle.board.specs.Flights.{vertex_at, open_flight, vertex_flight, flight_at, finished_board};

use crate::board::Board;
use crate::slot::Slot;
use interface::{Access, Request};
use patterns::tick::Tick;
use patterns::vertex::{Vertex, VertexEvent, VertexState};

impl Board {
    // The request that a slot has in flight, if it has one.
    pub fn in_flight(&self, slot: u16) -> Option<Request>
        ensures { result ≡ flight_at self.now slot }
    {
        self.known();
        let place = Slot::new(slot)?;
        match self.share(place.domain()) {
            Some(_) => open_flight(place, self.holder(place.index())),
            None => vertex_flight(place, self.vertex(place)),
        }
    }

    // The vertex of a slot, if it has one.
    fn vertex(&self, slot: Slot) -> Option<Vertex>
        ensures { result ≡ vertex_at self.now.lanes slot.number }
    {
        let lane = self.lanes.lane(slot.domain(), slot.lane())?;
        lane.vertices().get(slot.vertex()).copied()
    }

    // The Done of a slot: one of an open domain is free again, and a vertex that flies is done.
    pub fn finish(&mut self, slot: u16, tick: Tick)
        ensures { self.new ≡ finished_board tick slot self.old }
    {
        // A plain number, since one above 511, which is no Slot, is left alone too.
        let place = slot as usize;
        match self.share(place / 64) {
            Some(_) => self.release(place),
            None => self.advance(place, VertexEvent::Done(tick)),
        }
    }

    // The vertex of a slot leaves.
    pub fn depart(&mut self, slot: u16)
        ensures { self.new ≡ advanced_board Due slot self.old }
    {
        self.advance(slot as usize, VertexEvent::Due);
    }
}

fn open_flight(slot: Slot, holder: Option<Access>) -> Option<Request>
    ensures { result ≡ open_flight slot.number holder }
{
    Some(slot.request(holder?))
}

fn vertex_flight(slot: Slot, vertex: Option<Vertex>) -> Option<Request>
    ensures { result ≡ vertex_flight slot.number vertex }
{
    let chosen = vertex?;
    match chosen.state {
        VertexState::Still => None,
        VertexState::Flying => Some(slot.request(Access {
            bank: chosen.bank,
            kind: chosen.kind,
        })),
        VertexState::Done(_) => None,
    }
}
