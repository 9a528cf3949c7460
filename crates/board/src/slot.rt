// The slots of the card, by number.
ghost use Rattle.std.specs.Prelude.{◌≡◌, ◌/◌, ◌%◌, ◌<◌};
ghost use Rattle.std.specs.Option.{option_map};
ghost use Rattle.board.specs.Flights.{slot_number, request_in};

use interface::{Access, Request};

// A domain has 64 slots, and each of its lanes 8 of them.
#[derive(Clone, Copy)]
pub(crate) struct Slot {
    number: u16,
    ghost bound: { number < 512 },
}

impl Slot {
    // The slot of this number, if it is below 512.
    pub(crate) fn new(number: u16) -> Option<Slot>
        ensures { option_map (λ s. s.number) result ≡ slot_number number }
    {
        if number >= 512 {
            return None;
        }
        Some(Slot { number })
    }

    pub(crate) fn index(self) -> usize
        ensures { result ≡ self.number }
    {
        self.number as usize
    }

    pub(crate) fn domain(self) -> usize
        ensures { result ≡ self.number / 64 }
    {
        self.number as usize / 64
    }

    // The number of its lane in the domain.
    pub(crate) fn lane(self) -> usize
        ensures { result ≡ self.number / 8 % 8 }
    {
        self.number as usize / 8 % 8
    }

    // The number of its vertex in the lane.
    pub(crate) fn vertex(self) -> usize
        ensures { result ≡ self.number % 8 }
    {
        self.number as usize % 8
    }

    // The request that has this access from the slot.
    pub(crate) fn request(self, access: Access) -> Request
        ensures { result ≡ request_in self.number access.bank access.kind }
    {
        Request {
            slot: self.number,
            domain: (self.number / 64) as u8,
            bank: access.bank,
            kind: access.kind,
        }
    }
}
