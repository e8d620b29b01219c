// The records of zones and cars, written, and why what a change leaves is sound and is the model's.
#![tactic(auto)]

mod cars; // cars.rt: a car's record written
mod zones; // zones.rt: a zone's record written

pub use cars::{write_car, write_spot};
pub use zones::{clear_zone, write_zone};
