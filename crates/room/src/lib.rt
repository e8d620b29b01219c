// The room of the log: what of its tables a town needs, and what it has room for.
#![tactic(auto)]

mod room; // room.rt: the part of the starts that a town needs, a position from its bits, the room for an M
mod tame; // tame.rt: an answer's numbers made small

pub use room::{open_room, places_in, position_of};
pub use tame::{tame_added, tame_roster};
