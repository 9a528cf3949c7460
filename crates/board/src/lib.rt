// The public side of the tables of a scheduler: what is set, and which slots are held.
#![tactic(auto)]

pub mod board;
pub mod departures;
pub mod share;
mod slot;
