// The number of a tick.
ghost use Rattle.std.specs.Prelude.{◌≡◌, ◌+◌, ◌^◌, ◌≤◌};
ghost use Rattle.std.specs.Option.{option_map};
ghost use Rattle.patterns.specs.Ticks.{tick_number};

const LAST: u64 = 1_000_000_000_000_000_000;

// At most 10^18, so that a weight or a rest can be added in 64 bits.
#[derive(Clone, Copy, PartialEq, Eq, PartialOrd, Ord)]
pub struct Tick {
    pub number: u64,
    ghost bound: { number ≤ 10 ^ 18 },
}

impl Tick {
    // The tick of this number, if it is not above 10^18.
    pub fn new(number: u64) -> Option<Tick>
        ensures { option_map (λ t. t.number) result ≡ tick_number number }
    {
        if number > LAST {
            return None;
        }
        Some(Tick { number })
    }

    // The number of the tick that comes so many ticks later.
    pub(crate) fn plus(self, ticks: u16) -> u64
        ensures { result ≡ self.number + ticks }
    {
        self.number + ticks as u64
    }
}
