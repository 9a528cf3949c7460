// The rounds of a lane.
ghost use Rattle.std.specs.Prelude.{◌≡◌, ◌+◌, map, length};
ghost use Rattle.std.specs.Option.{option_map};
ghost use Rattle.patterns.specs.Due.{round_end};
ghost use Rattle.patterns.specs.Lanes.{done_by, renewed, advanced, started};
ghost use Rattle.patterns.specs.Moves.{moved};
ghost use Rattle.patterns.specs.declared.vertex.VertexEvent.TheVariants.{NewRound};

use crate::lane::Lane;
use crate::tick::Tick;
use crate::vertex::{Vertex, VertexEvent};

impl Lane {
    // An event moves one vertex on; a vertex that is not there is left alone.
    pub(crate) fn advance(&mut self, vertex: usize, event: VertexEvent)
        ensures { self.new ≡ advanced event vertex self.old }
    {
        if let Some(chosen) = self.vertices.get_mut(vertex) {
            chosen.advance(event);
        }
    }

    // Once all vertices are done, all become still, and the next start is the last Done tick and the rest.
    pub(crate) fn renew(&mut self)
        ensures { self.new ≡ renewed self.old }
    {
        if let Some(end) = round_end(self.vertices.as_slice()) {
            for vertex in self.vertices.iter_mut() {
                vertex.advance(VertexEvent::NewRound);
            }
            self.start = self.start_after(end);
        }
    }

    // The start that follows the end of a round.
    fn start_after(&self, end: Tick) -> u64
        ensures { result ≡ end.number + self.now.rest }
    {
        end.plus(self.rest)
    }

    // The first round starts at the run's first tick.
    pub(crate) fn start_at(&mut self, tick: u64)
        ensures { self.new ≡ started tick self.old }
    {
        self.start = tick;
    }
}

// The last Done tick, once all vertices are done.
fn round_end(vertices: &[Vertex]) -> Option<Tick>
    ensures { option_map (λ t. t.number) result ≡ round_end (done_by vertices.now) (length vertices.now) }
{
    let mut last = None;
    for vertex in vertices {
        let done = vertex.done_tick()?;
        last = last.max(Some(done));
    }
    last
}
