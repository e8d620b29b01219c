// What every call on the tables promises, and the refusals that several calls share.
#![tactic(auto)]

mod refusals; // refusals.rt: what calls on a standing zone, and on a car on the map, ask first

pub use refusals::{refuse_car, refuse_zone};
