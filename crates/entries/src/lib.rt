// The entries, written: a zone's keys put in and taken out, the starts moved with them.
#![tactic(auto)]

mod entries; // entries.rt: a zone's keys taken out in one pass
mod gaps; // gaps.rt: keys taken out by ranges
mod merge; // merge.rt: keys merged into the entries
mod keys; // keys.rt: a zone's keys put in
mod drop; // drop.rt: a zone's keys taken out

pub use drop::drop_keys;
pub use entries::FREE;
pub use gaps::{find_key, move_down};
pub use keys::{add_keys, key_codes, write_keys, write_keys_into};
pub use merge::{limit_of, move_up};
