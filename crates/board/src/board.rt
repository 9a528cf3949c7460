// The public side of the tables: what is set, how the lanes stand, and which open slots are held.
ghost use Rattle.std.specs.Prelude.{◌≡◌, ℕ, ◌≤◌, length, Some, None, slice_index_or};
ghost use Rattle.board.specs.Boards.{slots_set, Known};

use crate::share::Share;
use interface::Access;
use patterns::table::LaneTable;
use std::marker::Model;

mod flights;
mod opened;
mod protected;
mod settings;

// Shares by domain, lanes by domain and number, open slots by slot. No row, no serial and no mark of a fake is here, so
// that this is all that is seen where the controller is called.
#[derive(Drop)]
pub struct Board {
    // the first tick's number
    first: u64,
    shares: Vec<Option<Share>>,
    lanes: LaneTable,
    // what the requests ask that hold slots of open domains
    slots: Vec<Option<Access>>,
    // the slots of all shares and vertices together
    used: usize,
}

impl Model for Board {
    ghost use Rattle.std.specs.Prelude.{◌≡◌, vec_items, vec_len};
    ghost use Rattle.board.specs.Boards.{BoardView, board_of, Known};

    ghost Value = { BoardView };

    ghost view = { λ b. board_of b.first (vec_items b.shares) b.lanes (vec_items b.slots) };

    ghost invariant = { λ b. Known (board_of b.first (vec_items b.shares) b.lanes (vec_items b.slots)) b.used × (vec_len b.slots ≡ 512) };
}

impl Board {
    // What is known of every board, for the proofs of its callers: it does nothing.
    pub fn known(&self)
        ensures board { Known self.now (slots_set self.now) }
        ensures slots { length self.now.slots ≡ 512 }
        ensures shares { (d n : ℕ) → slice_index_or self.now.shares d None ≡ Some n → (1 ≤ n) × (n ≤ 16) }
    {
        let _ = &self.shares;
    }
}
