// The controller by turns: each domain has steps of its own, in which its oldest unissued request is issued.
#![tactic(auto)]

mod controller;

pub use controller::Turns;
