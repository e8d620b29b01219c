// The rosters, written: a zone's row cleared or set to the cars in a rectangle, a car's bytes set.
#![tactic(auto)]

mod rows; // rows.rt: a row of the rosters, written
mod inside; // inside.rt: the cars in a rectangle
mod ride; // ride.rt: a row set anew, and the cars that come and go

pub use inside::fill_row;
pub use ride::{CarsMoved, ride_row};
pub use rows::{clear_row, stamp_rows};
