// The share of an open domain.
ghost use Rattle.std.specs.Prelude.{◌≡◌, ◌≤◌};
ghost use Rattle.std.specs.Option.{option_map};
ghost use Rattle.board.specs.Shares.{share_number};

// How many slots an open domain has: 1 to 16.
#[derive(Clone, Copy)]
pub struct Share {
    slots: u8,
    ghost least: { 1 ≤ slots },
    ghost most: { slots ≤ 16 },
}

impl Share {
    // The share of this number, if it is 1 to 16.
    pub fn new(number: u64) -> Option<Share>
        ensures { option_map (λ s. s.slots) result ≡ share_number number }
    {
        if number < 1 || number > 16 {
            return None;
        }
        Some(Share {
            slots: number as u8,
        })
    }

    pub fn slots(&self) -> u8
        ensures { result ≡ self.now.slots }
    {
        self.slots
    }
}
