// The text that answers a line.
#![tactic(auto)]

mod texts; // texts.rt: a function for each answer that a log has

pub use texts::{
    write_added, write_bad, write_left, write_opened, write_removed, write_reported, write_roster,
    write_searched,
};
