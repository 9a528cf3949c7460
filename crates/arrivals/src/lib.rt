// Requests that arrive at given steps: how they are read from lines, and how a controller is driven with them.
#![tactic(auto)]

mod driving;
mod reading;

pub use driving::{admit, drain};
pub use reading::{Arrival, Complaint, read_arrival};
