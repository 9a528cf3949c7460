// The hidden side of the tables: the requests of the domains, and what each slot carries.
ghost use Rattle.std.specs.Prelude.{◌≡◌, ◌^◌, ◌<◌, length, IfOk, slice_index_or};
ghost use Rattle.model.specs.Payloads.{fake};
ghost use Rattle.store.specs.Stores.{Sized, new_store, backlog_at, with_backlog, with_payload, queued, joined, counted, numbered, unqueued};
ghost use Rattle.model.specs.Ticks.{oldest};

use crate::backlog::Backlog;
use interface::Access;
use model::Payload;
use std::alloc::{AllocError, Global};
use std::marker::Model;

mod lines;

// Requests by domain, payloads by slot. All rows, all serials and the mark of a fake are here, and only here.
#[derive(Drop)]
pub struct Store {
    backlogs: Vec<Backlog>,
    payloads: Vec<Payload>,
}

// What a clause sees: the requests by domain, and what each slot carries.
impl Model for Store {
    ghost use Rattle.store.specs.Stores.{StoreView, Sized};

    ghost Value = { StoreView };

    ghost view = { λ s. record { backlogs = s.backlogs.items; payloads = s.payloads.items } };

    ghost invariant = { λ s. Sized (record { backlogs = s.backlogs.items; payloads = s.payloads.items }) };
}

impl Store {
    // No request yet, and nothing but fakes.
    pub fn new(heap: Global) -> Result<Store, AllocError>
        ensures { IfOk result (λ s. s ≡ new_store) }
    {
        let payloads = vec![in heap; None; 512]?;
        let mut backlogs = Vec::with_capacity(heap, 8)?;
        for _ in 0..8_usize {
            backlogs.push_reserved(Backlog::new(heap)?);
        }
        Ok(Store { backlogs, payloads })
    }

    // What is known of every store, for the proofs of its callers: it does nothing.
    pub fn known(&self)
        ensures { Sized self.now }
    {
        let _ = &self.backlogs;
    }

    // How many requests of a domain wait.
    pub fn waiting(&self, domain: usize) -> usize
        ensures { result ≡ length (backlog_at self.now domain).queue }
    {
        self.backlogs
            .get(domain)
            .map_or(0, |backlog| backlog.waiting())
    }

    // The serial of a domain's next request.
    pub fn serial(&self, domain: usize) -> u64
        ensures { result ≡ (backlog_at self.now domain).serial }
    {
        self.backlogs
            .get(domain)
            .map_or(0, |backlog| backlog.serial())
    }

    // A request joins its domain's queue, unless 16 wait or the serials are used up.
    pub fn join(&mut self, domain: usize, access: Access, row: u16)
        ensures after { self.new ≡ with_backlog (joined access.bank access.kind row) domain self.old }
        ensures with_room { length (backlog_at self.old domain).queue < 16 → (backlog_at self.old domain).serial < 10 ^ 18 → self.new ≡ with_backlog (queued access.bank access.kind row) domain self.old }
    {
        if let Some(backlog) = self.backlogs.get_mut(domain) {
            backlog.join(access, row);
        }
    }

    // A request of the domain gets its serial, and waits in no queue, unless the serials are used up.
    pub fn count(&mut self, domain: usize)
        ensures after { self.new ≡ with_backlog numbered domain self.old }
        ensures with_serial { (backlog_at self.old domain).serial < 10 ^ 18 → self.new ≡ with_backlog counted domain self.old }
    {
        if let Some(backlog) = self.backlogs.get_mut(domain) {
            backlog.count();
        }
    }

    // What a slot carries.
    pub fn payload(&self, slot: usize) -> Payload
        ensures { result ≡ slice_index_or self.now.payloads slot fake }
    {
        *self.payloads.get(slot)?
    }

    // A slot carries this from now on.
    pub fn carry(&mut self, slot: usize, payload: Payload)
        ensures { self.new ≡ with_payload slot payload self.old }
    {
        if let Some(place) = self.payloads.get_mut(slot) {
            *place = payload;
        }
    }

    // The oldest request of a domain with this bank and kind leaves its queue; a fake where there is none.
    pub fn leave(&mut self, domain: usize, access: Access) -> Payload
        ensures value { result ≡ oldest access.bank access.kind (backlog_at self.old domain).queue }
        ensures after { self.new ≡ with_backlog (unqueued access.bank access.kind) domain self.old }
    {
        self.backlogs.get_mut(domain)?.leave(access)
    }
}
