// The squares of a cell looked into.
#![tactic(auto)]

mod looks; // looks.rt: the squares of a cell looked into
mod climb; // climb.rt: the first square of a cell that has a zone

pub use climb::climb_to_zone;
pub use looks::{cross, look_up};
