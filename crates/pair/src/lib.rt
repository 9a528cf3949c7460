// A controller of two others, each with half of the banks.
#![tactic(auto)]

mod pair;

pub use pair::Pair;
