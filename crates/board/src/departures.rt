// Who leaves in a tick. Nothing here sees a queue, a row or a serial.
ghost use Rattle.std.specs.Prelude.{◌≡◌, ◌+◌, ◌<◌, ◌≤◌, [], length, IfOk, None, slice_index_or};
ghost use Rattle.board.specs.Leaving.{leaves_in, lane_leaving, domain_leaving, board_leaving, added, all_added};

use crate::board::Board;
use interface::Request;
use patterns::lane::Lane;
use patterns::vertex::{Vertex, VertexState};
use std::alloc::{AllocError, Global};
use std::marker::Model;

// The requests that leave in a tick, by rising slot, with memory for one to each slot.
#[derive(Drop)]
pub struct Departures {
    list: Vec<Request>,
}

impl Model for Departures {
    ghost use Rattle.std.specs.Prelude.{◌≤◌, vec_items, vec_capacity};
    ghost use Rattle.board.specs.Leaving.{Requests};

    ghost Value = { Requests };

    ghost view = { λ d. vec_items d.list };

    ghost invariant = { λ d. 512 ≤ vec_capacity d.list };
}

impl Departures {
    // None yet.
    pub fn new(heap: Global) -> Result<Departures, AllocError>
        ensures { IfOk result (λ d. d ≡ []) }
    {
        let list = Vec::with_capacity(heap, 512)?;
        Ok(Departures { list })
    }

    pub fn requests(&self) -> &[Request]
        ensures { result.now ≡ self.now }
    {
        self.list.as_slice()
    }

    // The requests of the vertices that leave at a tick, by rising domain, lane and vertex.
    pub fn fill(&mut self, board: &Board, tick: u64)
        ensures { self.new ≡ board_leaving tick board.now }
    {
        board.known();
        self.list.clear();
        for domain in 0..8 {
            self.add_domain(board, tick, domain);
        }
    }

    // Adds those of one domain; an open domain has none.
    fn add_domain(&mut self, board: &Board, tick: u64, domain: u8)
        requires { domain < 8 }
        ensures { self.new ≡ all_added (domain_leaving tick domain (slice_index_or board.now.shares domain None) (slice_index_or board.now.lanes domain [])) self.old }
    {
        if board.is_open(domain as usize) {
            return;
        }
        board.known();
        let lanes = board.lanes(domain as usize);
        for (number, lane) in lanes.iter().enumerate() {
            let base = domain as u16 * 64 + number as u16 * 8;
            self.add_lane(lane, tick, domain, base);
        }
    }

    // Adds those of one lane, whose slots start at `base`.
    fn add_lane(&mut self, lane: &Lane, tick: u64, domain: u8, base: u16)
        requires { base + length lane.now.vertices ≤ 512 }
        ensures { self.new ≡ all_added (lane_leaving tick lane.now domain base 0 lane.now.vertices) self.old }
    {
        let vertices = lane.vertices();
        for (number, vertex) in vertices.iter().enumerate() {
            if leaves(lane, vertex, number, tick) {
                self.add(Request {
                    slot: base + number as u16,
                    domain,
                    bank: vertex.bank,
                    kind: vertex.kind,
                });
            }
        }
    }

    // Adds a request, while there is room.
    fn add(&mut self, request: Request)
        ensures { self.new ≡ added request self.old }
    {
        if self.list.len() < 512 {
            self.list.push_reserved(request);
        }
    }
}

// The vertex with this number in its lane is still and due.
fn leaves(lane: &Lane, vertex: &Vertex, number: usize, tick: u64) -> bool
    ensures { result ≡ leaves_in tick lane.now number vertex.now }
{
    match vertex.state {
        VertexState::Still => match lane.due_tick(number) {
            Some(due) => due <= tick,
            None => false,
        },
        VertexState::Flying => false,
        VertexState::Done(_) => false,
    }
}
