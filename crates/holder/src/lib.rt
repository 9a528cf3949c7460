// What the tables of held requests share: at most 32 entries, each of one request, and the events that are ready.
#![tactic(auto)]

mod entry;
mod holder;

pub use entry::{Change, OfRequest, Test};
pub use holder::Holder;
