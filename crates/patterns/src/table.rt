// The lanes of all domains.
ghost use Rattle.std.specs.Prelude.{◌≡◌, [], map, length, replicate, IfOk, slice_index_or};
ghost use Rattle.std.specs.Option.{option_map};
ghost use Rattle.std.specs.List.{slice_get};
ghost use Rattle.patterns.specs.Shape.{refused};
ghost use Rattle.patterns.specs.Ended.{EndsWithTheLast};
ghost use Rattle.patterns.specs.Lanes.{advanced, renewed, started, changed};
ghost use Rattle.patterns.specs.Tables.{FewLanes, table_refusal, with_lane};

use crate::domain::DomainLanes;
use crate::lane::Lane;
use crate::setting::{LaneRefusal, LaneSetting};
use crate::vertex::VertexEvent;
use std::alloc::{AllocError, Global};
use std::marker::Model;

const DOMAINS: usize = 8;

// Eight domains, by number.
#[derive(Drop)]
pub struct LaneTable {
    domains: Vec<DomainLanes>,
}

impl Model for LaneTable {
    ghost use Rattle.std.specs.Prelude.{◌≡◌, List, vec_items, vec_len};
    ghost use Rattle.patterns.specs.Lanes.{LaneView};
    ghost use Rattle.patterns.specs.Tables.{FewLanes};

    ghost Value = { List (List LaneView) };

    ghost view = { λ t. vec_items t.domains };

    ghost invariant = { λ t. (vec_len t.domains ≡ 8) × FewLanes (vec_items t.domains) };
}

impl LaneTable {
    // Eight domains with no lane.
    pub fn new(heap: Global) -> Result<LaneTable, AllocError>
        ensures { IfOk result (λ t. t ≡ replicate 8 []) }
    {
        let mut domains = Vec::with_capacity(heap, DOMAINS)?;
        for _ in 0..DOMAINS {
            domains.push_reserved(DomainLanes::new(heap)?);
        }
        Ok(LaneTable { domains })
    }

    // What is known of every table, for the proofs of its callers: it does nothing.
    pub fn known(&self)
        ensures eight { length self.now ≡ 8 }
        ensures few { FewLanes self.now }
    {
        let _ = &self.domains;
    }

    // The lanes of a domain, by number.
    pub fn lanes(&self, domain: usize) -> &[Lane]
        ensures { result.now ≡ slice_index_or self.now domain [] }
    {
        match self.domains.get(domain) {
            Some(chosen) => chosen.lanes(),
            None => &[],
        }
    }

    // How many lanes a domain has.
    pub fn lane_count(&self, domain: usize) -> usize
        ensures { result ≡ length (slice_index_or self.now domain []) }
    {
        self.lanes(domain).len()
    }

    // A lane by its domain and number.
    pub fn lane(&self, domain: usize, number: usize) -> Option<&Lane>
        ensures { option_map (λ l. l.now) result ≡ slice_get (slice_index_or self.now domain []) number }
    {
        self.lanes(domain).get(number)
    }

    // Adds a lane to a domain, unless it is refused; `free` is the number of free places.
    pub fn add(&mut self, domain: usize, lane: LaneSetting, free: usize) -> Result<(), LaneRefusal>
        ensures answer { refused result ≡ table_refusal self.old domain free lane.entry.vertices.now lane.entry.edges.now lane.entry.rest }
        ensures after { self.new ≡ changed (with_lane free lane.entry.vertices.now lane.entry.edges.now lane.entry.rest) self.old domain }
    {
        match self.domains.get_mut(domain) {
            Some(chosen) => chosen.add(lane, free),
            None => Err(LaneRefusal::Domain),
        }
    }

    // An event moves one vertex on; one that is not there is left alone.
    pub fn advance(&mut self, domain: usize, number: usize, vertex: usize, event: VertexEvent)
        ensures { self.new ≡ changed (λ ls. changed (advanced event vertex) ls number) self.old domain }
    {
        if let Some(chosen) = self.domains.get_mut(domain) {
            chosen.advance(number, vertex, event);
        }
    }

    // Every lane whose vertices are all done begins its next round.
    pub fn renew(&mut self)
        ensures after { self.new ≡ map (map renewed) self.old }
        ensures ends { EndsWithTheLast }
    {
        for domain in self.domains.iter_mut() {
            domain.renew();
        }
    }

    // Every lane starts its first round at a tick.
    pub fn start_at(&mut self, tick: u64)
        ensures { self.new ≡ map (map (started tick)) self.old }
    {
        for domain in self.domains.iter_mut() {
            domain.start_at(tick);
        }
    }
}
