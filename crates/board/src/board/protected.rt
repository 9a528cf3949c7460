// The lanes of protected domains.
ghost use Rattle.std.specs.Prelude.{◌≡◌, [], map, slice_index_or};
ghost use Rattle.interface.specs.Meaning.{any};
ghost use Rattle.board.specs.Boards.{started_board, renewed_board, advanced_board};
ghost use Rattle.board.specs.Slots.{vertex_serves, lane_serves};

use crate::board::Board;
use interface::Access;
use patterns::lane::Lane;
use patterns::vertex::{Vertex, VertexEvent};

impl Board {
    // The lanes of a domain, by number.
    pub(crate) fn lanes(&self, domain: usize) -> &[Lane]
        ensures { result.now ≡ slice_index_or self.now.lanes domain [] }
    {
        self.lanes.lanes(domain)
    }

    // Every lane starts its first round at the first tick.
    pub fn start(&mut self)
        ensures { self.new ≡ started_board self.old }
    {
        let first = self.first;
        self.lanes.start_at(first);
    }

    // Every lane whose vertices are all done begins its next round.
    pub fn renew(&mut self)
        ensures { self.new ≡ renewed_board self.old }
    {
        self.lanes.renew();
    }

    // An event moves the vertex of a slot on; a slot that has no vertex is left alone.
    pub fn advance(&mut self, slot: usize, event: VertexEvent)
        ensures { self.new ≡ advanced_board event slot self.old }
    {
        // The parts of a plain number, since one above 511, which is no Slot, is left alone too.
        self.lanes.advance(slot / 64, slot / 8 % 8, slot % 8, event);
    }

    // Some vertex of the domain has this bank and kind.
    pub fn serves(&self, domain: usize, access: Access) -> bool
        ensures { result ≡ any (lane_serves access.bank access.kind) (slice_index_or self.now.lanes domain []) }
    {
        some_lane_serves(self.lanes(domain), access)
    }
}

fn some_lane_serves(lanes: &[Lane], access: Access) -> bool
    ensures { result ≡ any (lane_serves access.bank access.kind) lanes.now }
{
    lanes.iter().any(|lane| has_vertex(lane.vertices(), access))
}

fn has_vertex(vertices: &[Vertex], access: Access) -> bool
    ensures { result ≡ any (vertex_serves access.bank access.kind) vertices.now }
{
    vertices.iter().any(|vertex| vertex.access() == access)
}
