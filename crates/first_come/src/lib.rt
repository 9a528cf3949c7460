// The first-come controller: requests are issued in the order of taking, each as soon as the gaps to earlier issues allow.
#![tactic(auto)]

mod controller;
mod gaps;

pub use controller::FirstCome;
pub use gaps::Gaps;
