// The calls that make a town and its zones: open, add, remove.
#![tactic(auto)]

mod open; // open.rt: an empty town
mod add; // add.rt: a zone added
mod remove; // remove.rt: a zone taken away
mod ride; // ride.rt: a zone moved

pub use add::add_zone;
pub use open::open_town;
pub use remove::remove_zone;
pub use ride::ride_zone;
