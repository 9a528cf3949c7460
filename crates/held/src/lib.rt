// The table of held requests that first-come and turns share: requests wait, are issued, and are done when their delay has run out.
#![tactic(auto)]

mod entries;
mod tables;

pub use entries::Entry;
pub use tables::Table;
