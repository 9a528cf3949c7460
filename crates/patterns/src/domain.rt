// The lanes of one domain.
ghost use Rattle.std.specs.Prelude.{◌≡◌, ◌≤◌, [], map, length, IfOk};
ghost use Rattle.patterns.specs.Shape.{refused, lane_refusal};
ghost use Rattle.patterns.specs.Lanes.{advanced, renewed, started, changed};
ghost use Rattle.patterns.specs.Tables.{with_lane};

use crate::lane::Lane;
use crate::setting::{LaneRefusal, LaneSetting};
use crate::shape::check_lane;
use crate::vertex::VertexEvent;
use std::alloc::{AllocError, Global};
use std::marker::Model;

// As many lanes may a domain have.
pub(crate) const MAX_LANES: usize = 8;

// The lanes that are set, by number, and the lanes that are left, whose memory is there from the beginning: 8 together.
#[derive(Drop)]
pub(crate) struct DomainLanes {
    lanes: Vec<Lane>,
    spare: Vec<Lane>,
}

impl Model for DomainLanes {
    ghost use Rattle.std.specs.Prelude.{◌≡◌, ◌+◌, ◌≤◌, List, vec_items, vec_len, vec_capacity};
    ghost use Rattle.patterns.specs.Lanes.{LaneView};

    ghost Value = { List LaneView };

    ghost view = { λ d. vec_items d.lanes };

    ghost invariant = { λ d. (vec_len d.lanes + vec_len d.spare ≡ 8) × (8 ≤ vec_capacity d.lanes) };
}

impl DomainLanes {
    // A domain with no lane.
    pub(crate) fn new(heap: Global) -> Result<DomainLanes, AllocError>
        ensures { IfOk result (λ d. d ≡ []) }
    {
        let lanes = Vec::with_capacity(heap, MAX_LANES)?;
        let mut spare = Vec::with_capacity(heap, MAX_LANES)?;
        for _ in 0..MAX_LANES {
            spare.push_reserved(Lane::new(heap)?);
        }
        Ok(DomainLanes { lanes, spare })
    }

    // The lanes that are set, by number.
    pub(crate) fn lanes(&self) -> &[Lane]
        ensures { result.now ≡ self.now }
    {
        self.lanes.as_slice()
    }

    // Adds a lane, unless it is refused; `free` is the number of free places.
    pub(crate) fn add(&mut self, lane: LaneSetting, free: usize) -> Result<(), LaneRefusal>
        ensures answer { refused result ≡ lane_refusal (length self.old) free lane.entry.vertices.now lane.entry.edges.now lane.entry.rest }
        ensures after { self.new ≡ with_lane free lane.entry.vertices.now lane.entry.edges.now lane.entry.rest self.old }
        ensures few { length self.new ≤ 8 }
    {
        check_lane(self.lanes.len(), free, lane)?;
        if let Some(mut chosen) = self.spare.pop() {
            chosen.fill(lane);
            self.lanes.push_reserved(chosen);
        }
        Ok(())
    }

    // An event moves one vertex on; a lane that is not there is left alone.
    pub(crate) fn advance(&mut self, number: usize, vertex: usize, event: VertexEvent)
        ensures value { self.new ≡ changed (advanced event vertex) self.old number }
        ensures few { length self.new ≤ 8 }
    {
        if let Some(lane) = self.lanes.get_mut(number) {
            lane.advance(vertex, event);
        }
    }

    // Every lane whose vertices are all done begins its next round.
    pub(crate) fn renew(&mut self)
        ensures { self.new ≡ map renewed self.old }
    {
        for lane in self.lanes.iter_mut() {
            lane.renew();
        }
    }

    // Every lane starts its first round at a tick.
    pub(crate) fn start_at(&mut self, tick: u64)
        ensures { self.new ≡ map (started tick) self.old }
    {
        for lane in self.lanes.iter_mut() {
            lane.start_at(tick);
        }
    }
}
