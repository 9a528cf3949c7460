// A lane: its vertices, its edges and its rest, and the start of its round.
ghost use Rattle.std.specs.Prelude.{◌≡◌, ◌≤◌, false, [], map, length, IfOk, None, vec_capacity};
ghost use Rattle.interface.specs.Meaning.{any};
ghost use Rattle.patterns.specs.Shape.{shape_checks, high_bank, bad_edges, vertex_of, edge_of};
ghost use Rattle.patterns.specs.Lanes.{lane_of};

use crate::edge::Edge;
use crate::setting::{EdgeSetting, LaneSetting, VertexSetting};
use crate::vertex::Vertex;
use std::alloc::{AllocError, Global};
use std::marker::Model;

mod due;
mod rounds;

// As many vertices and edges may a lane have.
pub(crate) const MAX_VERTICES: usize = 8;

pub(crate) const MAX_EDGES: usize = 16;

// The memory for 8 vertices and 16 edges is there from the beginning; a lane that is not set has no vertex.
#[derive(Drop)]
pub struct Lane {
    vertices: Vec<Vertex>,
    edges: Vec<Edge>,
    rest: u16,
    start: u64,
}

impl Model for Lane {
    ghost use Rattle.std.specs.Prelude.{◌≤◌, vec_items, vec_capacity};
    ghost use Rattle.patterns.specs.Lanes.{LaneView};

    ghost Value = { LaneView };

    ghost view = { λ l. record { vertices = vec_items l.vertices; edges = vec_items l.edges; rest = l.rest; start = l.start } };

    ghost invariant = { λ l. (8 ≤ vec_capacity l.vertices) × (16 ≤ vec_capacity l.edges) };
}

impl Lane {
    // A lane that is not set.
    pub(crate) fn new(heap: Global) -> Result<Lane, AllocError>
        ensures { IfOk result (λ l. l ≡ lane_of [] [] 0) }
    {
        let vertices = Vec::with_capacity(heap, MAX_VERTICES)?;
        let edges = Vec::with_capacity(heap, MAX_EDGES)?;
        Ok(Lane {
            vertices,
            edges,
            rest: 0,
            start: 0,
        })
    }

    // The vertices, in order of adding.
    pub fn vertices(&self) -> &[Vertex]
        ensures { result.now ≡ self.now.vertices }
    {
        self.vertices.as_slice()
    }

    // The lane gets the parts that were checked.
    pub(crate) fn fill(&mut self, lane: LaneSetting)
        requires { shape_checks lane.vertices.now lane.edges.now lane.rest None ≡ None }
        ensures { self.new ≡ lane_of lane.entry.vertices.now lane.entry.edges.now lane.entry.rest }
    {
        set_vertices(&mut self.vertices, lane.vertices);
        set_edges(&mut self.edges, lane.edges, lane.vertices.len());
        self.rest = lane.rest as u16;
        self.start = 0;
    }
}

// One loop for the vertices and one for the edges, since each item's conversion asks something else of it.
fn set_vertices(list: &mut Vec<Vertex>, vertices: &[VertexSetting])
    requires room { length vertices.now ≤ vec_capacity list.old }
    requires banks { any high_bank vertices.now ≡ false }
    ensures items { list.new.items ≡ map vertex_of vertices.now }
    ensures capacity { vec_capacity list.new ≡ vec_capacity list.old }
{
    list.clear();
    for vertex in vertices {
        list.push_reserved(vertex.still());
    }
}

fn set_edges(list: &mut Vec<Edge>, edges: &[EdgeSetting], vertices: usize)
    requires room { length edges.now ≤ vec_capacity list.old }
    requires good { bad_edges vertices [] edges.now ≡ false }
    requires few { vertices ≤ 8 }
    ensures items { list.new.items ≡ map edge_of edges.now }
    ensures capacity { vec_capacity list.new ≡ vec_capacity list.old }
{
    list.clear();
    for edge in edges {
        list.push_reserved(edge.edge());
    }
}
