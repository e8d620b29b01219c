// The tallies, written: a zone's counts moved as a car enters and leaves, counted anew, cleared; and its holder.
#![tactic(auto)]

mod holder; // holder.rt: the team that holds a zone
mod counts; // counts.rt: a zone's numbers

pub use counts::{clear_tally, count_cars, fill_tally, move_counts};
