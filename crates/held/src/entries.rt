// One held request.
ghost use Rattle.std.specs.Prelude.{◌≡◌};
ghost use Rattle.held.specs.Entries.{request_of, later, is_waiting, expired, issued_now, done_delay, new_entry, of_whom, candidate};

use holder::{Change, OfRequest, Test};
use interface::{Kind, Request};

#[derive(Clone, Copy)]
pub struct Entry {
    pub request: Request,
    // the steps until it is done, once it is issued
    pub until_done: Option<u8>,
    // the steps within which it is done
    pub left: u16,
}

impl OfRequest for Entry {
    ghost request = { request_of };

    fn request(&self) -> Request {
        self.request
    }
}

// A step passes.
#[derive(Clone, Copy)]
pub(crate) struct Step;

impl Change<Entry> for Step {
    ghost changed = { λ _. later };

    fn changed(&self, entry: Entry) -> Entry {
        entry.later()
    }
}

// The delay from issue to Done has run out.
#[derive(Clone, Copy)]
pub(crate) struct Expired;

impl Test<Entry> for Expired {
    ghost passes = { λ _. expired };

    fn passes(&self, entry: Entry) -> bool {
        entry.expired()
    }
}

impl Entry {
    // A request that has just been taken.
    pub fn new(request: Request, span: u16) -> Entry
        ensures { result ≡ new_entry span request }
    {
        Entry {
            request,
            until_done: None,
            left: span,
        }
    }

    // The entry when a step has passed.
    pub fn later(self) -> Entry
        ensures { result ≡ later self }
    {
        Entry {
            until_done: self.until_done.map(|n| n.saturating_sub(1)),
            left: self.left.saturating_sub(1),
            ..self
        }
    }

    // The entry when its request is issued.
    pub fn issued(self) -> Entry
        ensures { result ≡ issued_now self }
    {
        Entry {
            until_done: Some(delay_of(self.request.kind)),
            ..self
        }
    }

    pub fn is_waiting(self) -> bool
        ensures { result ≡ is_waiting self }
    {
        self.until_done.is_none()
    }

    // Whether it may be issued as the request of one domain, or of any.
    pub fn is_candidate(self, domain: Option<u8>) -> bool
        ensures { result ≡ candidate (of_whom domain) self }
    {
        domain.is_none_or(|d| self.request.domain == d) && self.is_waiting()
    }

    // Whether the delay from issue to Done has run out.
    pub fn expired(self) -> bool
        ensures { result ≡ expired self }
    {
        self.until_done == Some(0)
    }
}

// The steps from an issue to its Done.
fn delay_of(kind: Kind) -> u8
    ensures { result ≡ done_delay kind }
{
    match kind {
        Kind::Read => 26,
        Kind::Write => 23,
    }
}
