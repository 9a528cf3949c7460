// The edges of a lane.
ghost use Rattle.std.specs.Prelude.{◌≡◌, ◌+◌};
ghost use Rattle.patterns.specs.Due.{comes_into};

use crate::tick::Tick;

// The target waits for the source's Done, and then as many ticks as the weight says.
#[derive(Clone, Copy)]
pub struct Edge {
    pub source: u8,
    pub target: u8,
    pub weight: u16,
}

impl Edge {
    pub(crate) fn comes_into(&self, vertex: usize) -> bool
        ensures { result ≡ comes_into vertex self.now }
    {
        self.target as usize == vertex
    }

    // The tick from which the edge lets its target go, where its source is done at a tick.
    pub(crate) fn release(&self, done: Tick) -> u64
        ensures { result ≡ done.number + self.now.weight }
    {
        done.plus(self.weight)
    }
}
