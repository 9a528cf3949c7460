// The scheduler of a shared memory card, over any controller.
#![tactic(auto)]

pub mod call;
pub mod scheduler;
