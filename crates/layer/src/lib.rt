// What the layers over controllers share: the table of the requests that a layer holds, and of the events that it has ready.
#![tactic(auto)]

mod entry;
mod forward;
mod table;

pub use forward::Forward;
pub use table::Table;
