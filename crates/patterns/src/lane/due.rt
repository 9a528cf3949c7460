// When a vertex of a lane is due.
ghost use Rattle.std.specs.Prelude.{◌≡◌};
ghost use Rattle.std.specs.Option.{option_map};
ghost use Rattle.patterns.specs.Due.{due};
ghost use Rattle.patterns.specs.Greatest.{IsDue};
ghost use Rattle.patterns.specs.Lanes.{done_by, due_in};

use crate::edge::Edge;
use crate::lane::Lane;
use crate::tick::Tick;
use crate::vertex::Vertex;

impl Lane {
    // The tick at which a vertex is due: the greatest, over the edges that come into it, of the source's Done tick and the
    // weight, none until all those sources are done in this round; the start where no edge comes in.
    pub fn due_tick(&self, vertex: usize) -> Option<u64>
        ensures value { result ≡ due_in self.now vertex }
        ensures greatest { IsDue self.now vertex result }
    {
        due_among(
            self.edges.as_slice(),
            self.vertices.as_slice(),
            self.start,
            vertex,
        )
    }
}

fn due_among(edges: &[Edge], vertices: &[Vertex], start: u64, vertex: usize) -> Option<u64>
    ensures { result ≡ due start (done_by vertices.now) edges.now vertex }
{
    let mut latest = None;
    for edge in edges {
        if edge.comes_into(vertex) {
            let done = done_at(vertices, edge.source as usize)?;
            latest = latest.max(Some(edge.release(done)));
        }
    }
    Some(latest.unwrap_or(start))
}

// The Done tick of a vertex, if there is such a vertex and it is done in this round.
fn done_at(vertices: &[Vertex], vertex: usize) -> Option<Tick>
    ensures { option_map (λ t. t.number) result ≡ done_by vertices.now vertex }
{
    vertices.get(vertex)?.done_tick()
}
