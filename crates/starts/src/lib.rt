// The starts, written: for each place, how many of the entries lie before it.
#![tactic(auto)]

mod starts; // starts.rt: the starts counted from the entries
mod shift; // shift.rt: the starts moved by ranges
mod swap; // swap.rt: the starts moved by keys dropped and keys taken up

pub use shift::{lower_starts, raise_starts, shift_to};
pub use starts::{place_after, set_starts};
pub use swap::swap_starts;
