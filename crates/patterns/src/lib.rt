// Patterns: lanes of vertices and edges that repeat round after round.
#![tactic(auto)]

mod domain;
pub mod edge;
pub mod lane;
pub mod setting;
pub mod shape;
pub mod table;
pub mod tick;
pub mod vertex;
