// A scheduler and its controller.
ghost use Rattle.std.specs.Prelude.{◌≡◌, ℕ, ◌≤◌, length, Some, None, slice_index_or};
ghost use Rattle.board.specs.Boards.{slots_set, Known};
ghost use Rattle.store.specs.Stores.{Sized};
ghost use Rattle.scheduler.specs.Fresh.{Fresh};

use crate::scheduler::front::Front;
use board::departures::Departures;
use std::marker::Model;
use store::store::Store;

mod calls;
mod departures;
mod events;
mod front;
mod settings;
mod submits;
mod ticks;

// What is set and which slots are held lies in front, with the controller; rows, serials and the mark of a fake lie in the
// store, which is never in sight where a request is handed to the controller.
#[derive(Drop)]
pub struct Scheduler<C> {
    front: Front<C>,
    store: Store,
    // who leaves in the tick at hand
    departures: Departures,
    // the next tick's number, once the run has begun
    tick: Option<u64>,
}

// What a clause sees: the next tick's number, the controller and the tables, which are untouched before begin. `view` makes
// the model's state of it, which cannot be the value itself, since its tables are functions.
impl<C> Model for Scheduler<C> {
    ghost use Rattle.scheduler.specs.Fresh.{Fresh};
    ghost use Rattle.scheduler.specs.Schedulers.{Standing};

    ghost Value = { Standing C };

    ghost view = { λ s. record { next = s.tick; controller = s.front.controller; board = s.front.board; store = s.store } };

    ghost invariant = { λ s. Fresh s.tick s.front.board s.store };
}

impl<C> Scheduler<C> {
    // What is known of every scheduler, for the proofs of its callers: it does nothing.
    pub fn known(&self)
        ensures fresh { Fresh self.now.next self.now.board self.now.store }
        ensures board { Known self.now.board (slots_set self.now.board) }
        ensures slots { length self.now.board.slots ≡ 512 }
        ensures shares { (d n : ℕ) → slice_index_or self.now.board.shares d None ≡ Some n → (1 ≤ n) × (n ≤ 16) }
        ensures store { Sized self.now.store }
    {
        self.front.board.known();
        self.store.known();
    }
}
