// The checks of a lane that is to be added.
ghost use Rattle.std.specs.Prelude.{◌≡◌, []};
ghost use Rattle.interface.specs.Meaning.{any};
ghost use Rattle.patterns.specs.Shape.{refused, high_bank, same_pair, bad_edge, bad_edges, lane_refusal};

use crate::domain::MAX_LANES;
use crate::lane::{MAX_EDGES, MAX_VERTICES};
use crate::setting::{EdgeSetting, LaneRefusal, LaneSetting, VertexSetting};

// The greatest weight of an edge, and the greatest rest.
const MAX_WAIT: u64 = 1_000;

// Refuses a lane where its domain has so many lanes already, and so many places are free.
pub fn check_lane(lanes: usize, free: usize, lane: LaneSetting) -> Result<(), LaneRefusal>
    ensures { refused result ≡ lane_refusal lanes free lane.entry.vertices.now lane.entry.edges.now lane.entry.rest }
{
    let vertices = lane.vertices.len();
    if lanes >= MAX_LANES || vertices < 1 || vertices > MAX_VERTICES {
        return Err(LaneRefusal::Count);
    }
    if has_high(lane.vertices) {
        return Err(LaneRefusal::Bank);
    }
    if has_bad(lane.edges, vertices) || lane.rest > MAX_WAIT {
        return Err(LaneRefusal::Edge);
    }
    if vertices > free {
        return Err(LaneRefusal::Places);
    }
    Ok(())
}

fn has_high(vertices: &[VertexSetting]) -> bool
    ensures { result ≡ any high_bank vertices.now }
{
    vertices.iter().any(|vertex| vertex.is_high())
}

fn has_bad(edges: &[EdgeSetting], vertices: usize) -> bool
    ensures { result ≡ bad_edges vertices [] edges.now }
{
    // A loop, since the proof of an `any` with the edges before each one does not close.
    for (number, edge) in edges.iter().enumerate() {
        if is_bad(edge, vertices, &edges[..number]) {
            return true;
        }
    }
    false
}

// The edge is bad in a lane of so many vertices, after the earlier edges.
fn is_bad(edge: &EdgeSetting, vertices: usize, earlier: &[EdgeSetting]) -> bool
    ensures { result ≡ bad_edge vertices earlier.now edge.now }
{
    edge.target <= edge.source
        || edge.target >= vertices as u64
        || edge.weight > MAX_WAIT
        || has_pair(earlier, edge)
        || earlier.len() >= MAX_EDGES
}

fn has_pair(earlier: &[EdgeSetting], edge: &EdgeSetting) -> bool
    ensures { result ≡ any (same_pair edge.now) earlier.now }
{
    earlier.iter().any(|other| edge.same_pair(other))
}
