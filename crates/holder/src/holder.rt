// What a table of held requests consists of, and its calls.
ghost use Rattle.std.specs.Prelude.{◌≡◌, ◌≤◌, not, List, [], ◌∷◌, ◌++◌, map, length, position, IfOk};
ghost use Rattle.std.specs.VecDeque.{deque_capacity};
ghost use Rattle.interface.specs.Meaning.{refused, accepted, first, is_empty, any};
ghost use Rattle.interface.specs.Slots.{has_in, dones_of};
ghost use Rattle.holder.specs.Holding.{nothing, slot_by, admission, admitted, with_event, without_slot, collected, updated, replaced, added, all_added, with_dones};

use crate::entry::{Change, OfRequest, Test};
use interface::{Event, Refusal, Request};
use std::alloc::{AllocError, Global};
use std::collections::VecDeque;
use std::marker::Model;

// How many requests a table holds at most.
const PLACES: u8 = 32;

// The entries of the held requests, and the events that are ready, of which there are ROOM at most.
#[derive(Drop)]
pub struct Holder<E, const ROOM: usize> {
    // in the order of taking
    entries: Vec<E>,
    // in the order in which they are collected
    events: VecDeque<Event>,
}

impl<E, const ROOM: usize> Model for Holder<E, ROOM> {
    ghost use Rattle.std.specs.Prelude.{◌≤◌, vec_len, vec_capacity};
    ghost use Rattle.std.specs.VecDeque.{deque_capacity};
    ghost use Rattle.holder.specs.Holding.{Holding};

    ghost Value = { Holding E };

    ghost view = { λ h. record { entries = h.entries.items; events = h.events.items } };

    ghost invariant = { λ h. record { few : vec_len h.entries ≤ 32; places : 32 ≤ vec_capacity h.entries; room : ROOM ≤ deque_capacity h.events } };
}

impl<E: OfRequest + Copy, const ROOM: usize> Holder<E, ROOM> {
    pub fn new(heap: Global) -> Result<Holder<E, ROOM>, AllocError>
        ensures { IfOk result (λ t. t ≡ nothing) }
    {
        let entries = Vec::with_capacity(heap, usize::from(PLACES))?;
        let events = VecDeque::with_capacity(heap, ROOM)?;
        Ok(Holder { entries, events })
    }

    // What is known of every holder, for the proofs of its callers: it does nothing.
    pub fn known(&self)
        ensures { length self.now.entries ≤ 32 }
    {
        let _ = &self.entries;
    }

    pub fn clear(&mut self)
        ensures { self.new ≡ nothing }
    {
        self.entries.clear();
        self.events.clear();
    }

    pub fn has_events(&self) -> bool
        ensures { result ≡ not (is_empty self.now.events) }
    {
        !self.events.is_empty()
    }

    // How many events are ready.
    pub fn ready(&self) -> usize
        ensures { result ≡ length self.now.events }
    {
        self.events.len()
    }

    // The entries in the order of taking.
    pub fn entries(&self) -> &[E]
        ensures { result.now ≡ self.now.entries }
    {
        self.entries.as_slice()
    }

    // Changes each entry. There are 32 at most.
    pub fn update<C: Change<E>>(&mut self, change: &C)
        ensures few { length self.old.entries ≤ 32 }
        ensures after { self.new ≡ updated (C.changed change.now) self.old }
    {
        for e in self.entries.iter_mut() {
            *e = change.changed(*e);
        }
    }

    // Puts an entry in the place of another.
    pub fn replace(&mut self, i: usize, entry: E)
        ensures { self.new ≡ replaced i entry self.old }
    {
        if let Some(e) = self.entries.get_mut(i) {
            *e = entry;
        }
    }

    // Makes the Done of each entry ready that passes a test, while there is room.
    pub fn add_dones<T: Test<E>>(&mut self, test: &T)
        ensures { self.new ≡ with_dones ROOM E.request (T.passes test.now) self.old }
    {
        add_dones::<E, T, ROOM>(&self.entries, test, &mut self.events);
    }

    // Where the slot is held.
    fn find(&self, slot: u16) -> Option<usize>
        ensures { result ≡ position (has_in (slot_by E.request) slot) self.now.entries }
    {
        self.entries.iter().position(|e| e.request().slot == slot)
    }

    fn holds(&self, slot: u16) -> bool
        ensures { result ≡ any (has_in (slot_by E.request) slot) self.now.entries }
    {
        self.entries.iter().any(|e| e.request().slot == slot)
    }

    // Holds an entry last, where there are so many places. There are 32 at most.
    pub fn admit(&mut self, places: u8, entry: E) -> Result<(), Refusal>
        ensures answer { refused result ≡ admission E.request places self.old entry }
        ensures after { self.new ≡ accepted (admission E.request places self.old entry) (admitted self.old entry) self.old }
    {
        let request = entry.request();
        if !request.in_range() {
            return Err(Refusal::OutOfRange);
        }
        if self.holds(request.slot) {
            return Err(Refusal::SlotHeld);
        }
        if self.entries.len() >= usize::from(places.min(PLACES)) {
            return Err(Refusal::Full);
        }
        self.entries.push_reserved(entry);
        Ok(())
    }

    // Makes an event ready, while there is room.
    pub fn add(&mut self, event: Event)
        ensures { self.new ≡ with_event ROOM event self.old }
    {
        add::<ROOM>(&mut self.events, event);
    }

    // The request of the slot is held no more.
    pub fn end(&mut self, slot: u16)
        ensures { self.new ≡ without_slot E.request slot self.old }
    {
        if let Some(i) = self.find(slot) {
            let _ended = self.entries.remove(i);
        }
    }

    // Hands out the first event. A Done ends the holding of its slot.
    pub fn collect(&mut self) -> Option<Event>
        ensures answer { result ≡ first self.old.events }
        ensures after { self.new ≡ collected E.request self.old }
    {
        let event = self.events.pop_front()?;
        if let Event::Done(slot) = event {
            self.end(slot);
        }
        Some(event)
    }
}

// Adds an event, while there is room.
fn add<const ROOM: usize>(events: &mut VecDeque<Event>, event: Event)
    requires { ROOM ≤ deque_capacity events.old }
    ensures items { events.new.items ≡ added ROOM event events.old.items }
    ensures capacity { deque_capacity events.new ≡ deque_capacity events.old }
{
    if events.len() < ROOM {
        events.push_back_reserved(event);
    }
}

// Adds the Done of each entry that passes a test.
fn add_dones<E: OfRequest + Copy, T: Test<E>, const ROOM: usize>(
    entries: &[E],
    test: &T,
    events: &mut VecDeque<Event>,
)
    requires { ROOM ≤ deque_capacity events.old }
    ensures items { events.new.items ≡ all_added ROOM (dones_of (slot_by E.request) (T.passes test.now) entries.now) events.old.items }
    ensures capacity { deque_capacity events.new ≡ deque_capacity events.old }
{
    for e in entries {
        if test.passes(*e) {
            add::<ROOM>(events, Event::Done(e.request().slot));
        }
    }
}
