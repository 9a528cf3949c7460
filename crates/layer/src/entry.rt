// A request that a layer holds.
ghost use Rattle.std.specs.Prelude.{◌≡◌, List, [], ◌∷◌};
ghost use Rattle.layer.specs.Entries.{request_of, new_entry, updated, advanced, is_due};

use holder::{Change, OfRequest, Test};
use interface::{Event, Request};

#[derive(Clone, Copy)]
pub struct Entry {
    pub request: Request,
    // its Issue has come from below
    pub issued: bool,
    // its Done has come from below
    pub done: bool,
    // the steps since it was taken
    pub age: u64,
}

impl OfRequest for Entry {
    ghost request = { request_of };

    fn request(&self) -> Request {
        self.request
    }
}

// An event came from below.
#[derive(Clone, Copy)]
pub(crate) struct Received(pub Event);

impl Change<Entry> for Received {
    ghost changed = { λ r. updated (r.0 ∷ []) };

    fn changed(&self, entry: Entry) -> Entry {
        entry.updated(self.0)
    }
}

// A step passed.
#[derive(Clone, Copy)]
pub(crate) struct Step;

impl Change<Entry> for Step {
    ghost changed = { λ _. advanced };

    fn changed(&self, entry: Entry) -> Entry {
        entry.advanced()
    }
}

// Done below, and taken at least `delay` steps ago.
#[derive(Clone, Copy)]
pub(crate) struct Due {
    pub delay: u16,
}

impl Test<Entry> for Due {
    ghost passes = { λ d. is_due d.delay };

    fn passes(&self, entry: Entry) -> bool {
        entry.is_due(self.delay)
    }
}

impl Entry {
    pub fn new(request: Request) -> Entry
        ensures { result ≡ new_entry request }
    {
        Entry {
            request,
            issued: false,
            done: false,
            age: 0,
        }
    }

    // The entry after an event came from below.
    pub fn updated(self, event: Event) -> Entry
        ensures { result ≡ updated (event ∷ []) self }
    {
        match event {
            Event::Issue(slot) => Entry {
                issued: self.issued | (slot == self.request.slot),
                ..self
            },
            Event::Done(slot) => Entry {
                done: self.done | (slot == self.request.slot),
                ..self
            },
        }
    }

    // The entry after a step.
    pub fn advanced(self) -> Entry
        ensures { result ≡ advanced self }
    {
        Entry {
            age: self.age.saturating_add(1),
            ..self
        }
    }

    // Whether it is done below and at least `delay` steps have passed since its taking.
    pub fn is_due(&self, delay: u16) -> bool
        ensures { result ≡ is_due delay self.now }
    {
        self.done & (u64::from(delay) <= self.age)
    }
}
