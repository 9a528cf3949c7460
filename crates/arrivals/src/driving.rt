// Driving a controller: the arrivals of a step are taken, and the events of a step are collected.
ghost use Rattle.std.specs.Prelude.{◌≡◌, ◌+◌, ◌≤◌, min, [], length, drop};
ghost use Rattle.interface.specs.Emptied.{emptied};
ghost use Rattle.arrivals.specs.Driving.{admits, offered, taken_count, taken_state, filled};

use crate::reading::Arrival;
use interface::{Controller, Event};

// Offers an arrival to the controller, if its step has come.
fn offer<C: Controller>(controller: &mut C, arrival: Arrival, step: u64) -> bool
    ensures answer { result ≡ admits C.meaning step arrival (C.state controller.old) }
    ensures after { C.state controller.new ≡ offered C.meaning step arrival (C.state controller.old) }
{
    arrival.step <= step && controller.take(arrival.request).is_ok()
}

// Takes the arrivals whose step has come, up to the first that the controller refuses; how many it takes.
fn take_all<C: Controller>(controller: &mut C, arrivals: &[Arrival], step: u64) -> usize
    ensures answer { result ≡ taken_count C.meaning step arrivals.now (C.state controller.old) }
    ensures within { result ≤ length arrivals.now }
    ensures after { C.state controller.new ≡ taken_state C.meaning step arrivals.now (C.state controller.old) }
{
    // A loop, since the closure of `position` would change the controller that it holds, of which a proof then knows nothing.
    for (taken, arrival) in arrivals.iter().enumerate() {
        if !offer(controller, *arrival, step) {
            return taken;
        }
    }
    arrivals.len()
}

// Takes the arrivals from `next` on whose step has come, up to the first that the controller refuses; the number of the first
// that is not taken.
pub fn admit<C: Controller>(
    controller: &mut C,
    arrivals: &[Arrival],
    next: usize,
    step: u64,
) -> usize
    ensures answer { result ≡ next + taken_count C.meaning step (drop next arrivals.now) (C.state controller.old) }
    ensures after { C.state controller.new ≡ taken_state C.meaning step (drop next arrivals.now) (C.state controller.old) }
{
    match arrivals.get(next..) {
        Some(rest) => next + take_all(controller, rest, step),
        None => next,
    }
}

// Empties a controller. Of its events, in order, as many go to the front of `out` as fit.
pub fn drain<C: Controller>(controller: &mut C, out: &mut [Event]) -> usize
    ensures count { result ≡ min (length (C.meaning.ready (C.state controller.old))) (length out.old) }
    ensures events { out.new ≡ filled (C.meaning.ready (C.state controller.old)) out.old }
    ensures after { C.state controller.new ≡ emptied C.meaning (C.meaning.ready (C.state controller.old)) (C.state controller.old) }
    ensures none { C.meaning.ready (C.state controller.new) ≡ [] }
{
    let mut n = 0;
    while let Some(event) = controller.collect() {
        // An index, since the proof of a write through `get_mut` does not close.
        if n < out.len() {
            out[n] = event;
            n += 1;
        }
    }
    n
}
