// The parts of a lane as a setting call gives them, and why a lane is refused.
ghost use Rattle.std.specs.Prelude.{◌≡◌, ◌<◌, ◌≤◌};
ghost use Rattle.patterns.specs.Shape.{number, high_bank, same_pair, vertex_of, edge_of};

use crate::edge::Edge;
use crate::vertex::{Vertex, VertexState};
use interface::Kind;

#[derive(Clone, Copy)]
pub struct VertexSetting {
    pub bank: u64,
    pub kind: Kind,
}

impl VertexSetting {
    // The bank is above 7.
    pub(crate) fn is_high(&self) -> bool
        ensures { result ≡ high_bank self.now }
    {
        self.bank > 7
    }

    // The vertex as its lane holds it at first.
    pub(crate) fn still(&self) -> Vertex
        requires { self.now.bank ≤ 7 }
        ensures { result ≡ vertex_of self.now }
    {
        Vertex {
            bank: self.bank as u8,
            kind: self.kind,
            state: VertexState::Still,
        }
    }
}

#[derive(Clone, Copy)]
pub struct EdgeSetting {
    pub source: u64,
    pub target: u64,
    pub weight: u64,
}

impl EdgeSetting {
    // Both edges lead from one vertex to one other, whatever their weights.
    pub(crate) fn same_pair(&self, other: &EdgeSetting) -> bool
        ensures { result ≡ same_pair self.now other.now }
    {
        self.source == other.source && self.target == other.target
    }

    // The edge as its lane holds it.
    pub(crate) fn edge(&self) -> Edge
        requires source { self.now.source < 8 }
        requires target { self.now.target < 8 }
        requires weight { self.now.weight ≤ 1000 }
        ensures { result ≡ edge_of self.now }
    {
        Edge {
            source: self.source as u8,
            target: self.target as u8,
            weight: self.weight as u16,
        }
    }
}

// A lane: its vertices and edges in the order of adding, and its rest.
#[derive(Clone, Copy)]
pub struct LaneSetting<'a> {
    pub vertices: &'a [VertexSetting],
    pub edges: &'a [EdgeSetting],
    pub rest: u64,
}

// Why a lane is refused, with the number by which each refusal is known.
#[derive(Clone, Copy, PartialEq, Eq, Debug)]
pub enum LaneRefusal {
    // a domain above 7
    Domain = 2,
    // the domain has 8 lanes already, or the lane has not 1 to 8 vertices
    Count = 4,
    // a vertex's bank is above 7
    Bank = 5,
    // a bad edge, or a rest above 1,000
    Edge = 6,
    // more vertices than there are free places
    Places = 7,
}

impl LaneRefusal {
    pub fn number(self) -> u8
        ensures { result ≡ number self }
    {
        self as u8
    }
}
