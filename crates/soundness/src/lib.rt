// Soundness: whether what is derived from the records stands in the tables as it should.
#![tactic(auto)]

mod entry; // entry.rt: the square at an entry's place
mod zones; // zones.rt: the zones, checked
mod cars; // cars.rt: the cars, checked
mod lists; // lists.rt: the squares' lists, checked
mod roster; // roster.rt: the rosters, checked
mod tally; // tally.rt: the zones' numbers, checked
mod sweep; // sweep.rt: soundness

pub use sweep::sound;
