// A table of held requests. It behaves as a controller that issues nothing of itself, and issues when it is told to.
ghost use Rattle.std.specs.Prelude.{◌≡◌, ◌≤◌, length, IfOk, if◌then◌else◌};
ghost use Rattle.std.specs.Option.{option_map};
ghost use Rattle.interface.specs.Meaning.{Call, after, accepted, refused, first, is_empty, take_refusal};
ghost use Rattle.held.specs.Entries.{next_of, of_whom, request_of};
ghost use Rattle.held.specs.Rows.{no_rows, table_meaning, busy, passed, issue_oldest, first_out};

use crate::entries::{Entry, Expired, Step};
use holder::Holder;
use interface::{Event, Refusal, Request};
use std::alloc::{AllocError, Global};
use std::marker::Model;

// How many requests can be held at once.
const PLACES: u8 = 32;

// How many events are ready at most: a Done of each request, and an Issue.
const ROOM: usize = 33;

// The requests that a controller holds, at most 32, and the events that are ready.
#[derive(Drop)]
pub struct Table {
    holder: Holder<Entry, ROOM>,
}

impl Model for Table {
    ghost use Rattle.held.specs.Rows.{Rows, rows_of};

    ghost Value = { Rows };

    ghost view = { λ t. rows_of t.holder };
}

impl Table {
    pub fn new(heap: Global) -> Result<Table, AllocError>
        ensures { IfOk result (λ t. t ≡ no_rows) }
    {
        let holder = Holder::new(heap)?;
        Ok(Table { holder })
    }

    // What is known of every table, for the proofs of its callers: it does nothing.
    pub fn known(&self)
        ensures { length self.now.entries ≤ 32 }
    {
        self.holder.known();
    }

    pub fn clear(&mut self)
        ensures { self.new ≡ no_rows }
    {
        self.holder.clear();
    }

    // Holds a request that is to be done within `span` steps.
    pub fn take(&mut self, request: Request, span: u16) -> Result<(), Refusal>
        ensures answer { refused result ≡ take_refusal (table_meaning span) self.old request }
        ensures after { self.new ≡ after (table_meaning span) (Call.take request) self.old }
    {
        self.holder.admit(PLACES, Entry::new(request, span))
    }

    // Lets one step pass: each request whose delay has run out has its Done ready.
    pub fn step(&mut self) -> Result<(), Refusal>
        ensures answer { refused result ≡ busy self.old }
        ensures after { self.new ≡ accepted (busy self.old) (passed self.old) self.old }
    {
        if self.holder.has_events() {
            return Err(Refusal::EventsReady);
        }
        self.holder.update(&Step);
        self.holder.add_dones(&Expired);
        Ok(())
    }

    // The oldest request that waits, of one domain or of any.
    pub fn oldest(&self, domain: Option<u8>) -> Option<Request>
        ensures { result ≡ option_map request_of (next_of (of_whom domain) self.now.entries) }
    {
        self.holder
            .entries()
            .iter()
            .find(|e| e.is_candidate(domain))
            .map(|e| e.request)
    }

    // Issues that request.
    pub fn issue_oldest(&mut self, domain: Option<u8>)
        ensures { self.new ≡ issue_oldest (of_whom domain) self.old }
    {
        if self.holder.ready() > 32 {
            return;
        }
        let entries = self.holder.entries();
        if let Some(i) = entries.iter().position(|e| e.is_candidate(domain)) {
            let entry = entries[i];
            self.holder.replace(i, entry.issued());
            self.holder.add(Event::Issue(entry.request.slot));
        }
    }

    // Hands out the first ready event; a Done ends the holding of its slot.
    pub fn collect(&mut self) -> Option<Event>
        ensures answer { result ≡ first self.old.events }
        ensures after { self.new ≡ (if is_empty self.old.events then self.old else first_out self.old) }
    {
        self.holder.collect()
    }
}
