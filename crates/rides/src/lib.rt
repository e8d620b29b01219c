// The keys of a zone that rides, exchanged for those of its new place in one pass, and the starts that go with them.
#![tactic(auto)]

mod part; // part.rt: what two rising lists have not in common
mod apart; // apart.rt: the keys that only one of two rectangles has
mod changes; // changes.rt: the keys dropped and taken up
mod keys; // keys.rt: the keys that are exchanged
mod lift; // lift.rt: a block of keys moved up
mod sink; // sink.rt: a block of keys moved down
mod pass; // pass.rt: the blocks, one after another
mod rides; // rides.rt: a zone's keys exchanged

pub use part::Parts;
pub use rides::ride_keys;
