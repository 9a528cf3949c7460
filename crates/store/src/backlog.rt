// The requests of one domain, and how they join and leave its queue.
ghost use Rattle.std.specs.Prelude.{◌≡◌, ◌^◌, ◌<◌, [], length, IfOk};
ghost use Rattle.model.specs.Ticks.{oldest};
ghost use Rattle.store.specs.Stores.{no_backlog, queued, joined, counted, numbered, unqueued, place_of};

use interface::Access;
use model::{Payload, Real, Waiting};
use std::alloc::{AllocError, Global};
use std::marker::Model;

// The queue of a protected domain, with memory for 16 requests, and the serial of the domain's next request.
#[derive(Drop)]
pub struct Backlog {
    queue: Vec<Waiting>,
    serial: u64,
}

// What a clause sees: the queue and the serial.
impl Model for Backlog {
    ghost use Rattle.std.specs.Prelude.{◌≤◌, vec_capacity};
    ghost use Rattle.store.specs.Stores.{BacklogView};

    ghost Value = { BacklogView };

    ghost view = { λ b. record { queue = b.queue.items; serial = b.serial } };

    ghost invariant = { λ b. 16 ≤ vec_capacity b.queue };
}

impl Backlog {
    // No request yet, and memory for 16.
    pub fn new(heap: Global) -> Result<Backlog, AllocError>
        ensures { IfOk result (λ b. b ≡ no_backlog) }
    {
        let queue = Vec::with_capacity(heap, 16)?;
        Ok(Backlog { queue, serial: 0 })
    }

    // How many requests wait.
    pub fn waiting(&self) -> usize
        ensures { result ≡ length self.now.queue }
    {
        self.queue.len()
    }

    // The serial of the next request.
    pub fn serial(&self) -> u64
        ensures { result ≡ self.now.serial }
    {
        self.serial
    }

    // A request joins the queue, unless 16 wait or the serials are used up.
    pub fn join(&mut self, access: Access, row: u16)
        ensures after { self.new ≡ joined access.bank access.kind row self.old }
        ensures with_room { length self.old.queue < 16 → self.old.serial < 10 ^ 18 → self.new ≡ queued access.bank access.kind row self.old }
    {
        let serial = self.serial;
        if self.queue.len() < 16 && serial < 1_000_000_000_000_000_000 {
            self.queue.push_reserved(Waiting {
                bank: access.bank,
                kind: access.kind,
                row,
                serial,
            });
            self.serial = serial + 1;
        }
    }

    // A request gets its serial, and waits in no queue, unless the serials are used up.
    pub fn count(&mut self)
        ensures after { self.new ≡ numbered self.old }
        ensures with_serial { self.old.serial < 10 ^ 18 → self.new ≡ counted self.old }
    {
        if self.serial < 1_000_000_000_000_000_000 {
            self.serial += 1;
        }
    }

    // The oldest request with this bank and kind leaves the queue; a fake where there is none.
    pub fn leave(&mut self, access: Access) -> Payload
        ensures value { result ≡ oldest access.bank access.kind self.old.queue }
        ensures after { self.new ≡ unqueued access.bank access.kind self.old }
    {
        let place = place_of(self.queue.as_slice(), access)?;
        let request = self.queue.remove(place);
        Some(Real {
            row: request.row,
            serial: request.serial,
        })
    }
}

// The place of the oldest request with this bank and kind.
fn place_of(queue: &[Waiting], access: Access) -> Option<usize>
    ensures { result ≡ place_of access.bank access.kind queue.now }
{
    queue.iter().position(|request| request.access() == access)
}
