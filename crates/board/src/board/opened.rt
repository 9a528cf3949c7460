// The slots of open domains, as they are held and freed; and a new board.
ghost use Rattle.std.specs.Prelude.{◌≡◌, ◌<◌, [], set, replicate, IfSome, IfOk, Some, None, slice_index_or};
ghost use Rattle.board.specs.Boards.{new_board, with_slot};
ghost use Rattle.board.specs.Slots.{free, is_free, turn_of};

use crate::board::Board;
use interface::Access;
use patterns::table::LaneTable;
use std::alloc::{AllocError, Global};

impl Board {
    // Nothing is set, and no slot is held.
    pub fn new(heap: Global) -> Result<Board, AllocError>
        ensures { IfOk result (λ b. b ≡ new_board) }
    {
        let shares = vec![in heap; None; 8]?;
        let lanes = LaneTable::new(heap)?;
        let slots = vec![in heap; None; 512]?;
        Ok(Board {
            first: 0,
            shares,
            lanes,
            slots,
            used: 0,
        })
    }

    // No request holds the slot.
    pub fn is_free(&self, slot: usize) -> bool
        ensures { result ≡ is_free (slice_index_or self.now.slots slot free) }
    {
        self.holder(slot).is_none()
    }

    // What the request asks that holds the slot, if one does.
    pub(crate) fn holder(&self, slot: usize) -> Option<Access>
        ensures { result ≡ slice_index_or self.now.slots slot free }
    {
        self.slots.get(slot).copied().flatten()
    }

    // A request with this bank and kind holds the slot.
    pub fn hold(&mut self, slot: usize, access: Access)
        ensures { self.new ≡ with_slot slot (Some access) self.old }
    {
        if let Some(holder) = self.slots.get_mut(slot) {
            *holder = Some(access);
        }
    }

    // The slot is free.
    pub fn release(&mut self, slot: usize)
        ensures { self.new ≡ with_slot slot free self.old }
    {
        if let Some(holder) = self.slots.get_mut(slot) {
            *holder = None;
        }
    }

    // The slot of an open domain whose turn it is at the request with this serial.
    pub fn slot_in_turn(&self, domain: usize, serial: u64) -> Option<usize>
        ensures value { result ≡ turn_of domain serial (slice_index_or self.now.shares domain None) }
        ensures low { IfSome result (λ t. t < 512) }
    {
        self.known();
        let share = self.share(domain)?;
        Some(domain * 64 + (serial % share.slots() as u64) as usize)
    }
}
