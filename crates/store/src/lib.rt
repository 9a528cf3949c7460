// The hidden side of the tables of a scheduler: the requests of the domains, and what each slot carries.
#![tactic(auto)]

pub mod backlog;
pub mod page;
pub mod store;
