// A controller over any other, in which no request is done before the L-th step after its taking.
#![tactic(auto)]

mod level;

pub use level::Level;
