// The requests that a layer holds, and the events that it has ready.
ghost use Rattle.std.specs.Prelude.{◌≡◌, ◌≤◌, not, length, IfOk};
ghost use Rattle.interface.specs.Meaning.{refused, accepted, first, is_empty};
ghost use Rattle.interface.specs.Emptied.{emptied};
ghost use Rattle.layer.specs.Forwards.{forwards};
ghost use Rattle.layer.specs.Contents.{empty, admission, admitted, gathered, all_advanced, released, collected};

use crate::entry::{Due, Entry, Received, Step};
use crate::forward::Forward;
use holder::Holder;
use interface::{Controller, Event, Refusal, Request};
use std::alloc::{AllocError, Global};
use std::marker::Model;

// How many events are ready at most: an Issue and a Done of each request.
const ROOM: usize = 64;

#[derive(Drop)]
pub struct Table {
    holder: Holder<Entry, ROOM>,
}

impl Model for Table {
    ghost use Rattle.layer.specs.Contents.{Contents, contents_of};

    ghost Value = { Contents };

    ghost view = { λ t. contents_of t.holder };
}

impl Table {
    pub fn new(heap: Global) -> Result<Table, AllocError>
        ensures { IfOk result (λ t. t ≡ empty) }
    {
        let holder = Holder::new(heap)?;
        Ok(Table { holder })
    }

    // What is known of every table, for the proofs of its callers: it does nothing.
    pub fn known(&self)
        ensures { length self.now.held ≤ 32 }
    {
        self.holder.known();
    }

    pub fn clear(&mut self)
        ensures { self.new ≡ empty }
    {
        self.holder.clear();
    }

    pub fn has_events(&self) -> bool
        ensures { result ≡ not (is_empty self.now.events) }
    {
        self.holder.has_events()
    }

    // Holds a request, where there are so many places. A table has 32 at most.
    pub fn admit(&mut self, places: u8, request: Request) -> Result<(), Refusal>
        ensures answer { refused result ≡ admission places self.old request }
        ensures after { self.new ≡ accepted (admission places self.old request) (admitted self.old request) self.old }
    {
        self.holder.admit(places, Entry::new(request))
    }

    // Takes all events from below.
    pub fn gather<C: Controller>(&mut self, forward: Forward, below: &mut C)
        ensures below { C.state below.new ≡ emptied C.meaning (C.meaning.ready (C.state below.old)) (C.state below.old) }
        ensures after { self.new ≡ gathered (forwards forward) (C.meaning.ready (C.state below.old)) self.old }
    {
        while let Some(event) = below.collect() {
            self.holder.update(&Received(event));
            if forward.forwards(event) {
                self.holder.add(event);
            }
        }
    }

    // Lets a step pass for each held request.
    pub fn advance(&mut self)
        ensures { self.new ≡ all_advanced self.old }
    {
        self.holder.update(&Step);
    }

    // Makes the Done ready of each request that is done below and was taken at least `delay` steps ago.
    pub fn release(&mut self, delay: u16)
        ensures { self.new ≡ released delay self.old }
    {
        self.holder.add_dones(&Due { delay });
    }

    // Hands out the first event. A Done ends the holding of its slot.
    pub fn collect(&mut self) -> Option<Event>
        ensures answer { result ≡ first self.old.events }
        ensures after { self.new ≡ collected self.old }
    {
        self.holder.collect()
    }
}
