// A piece of the log answered into a lent buffer: as many lines as have room.
#![tactic(auto)]

mod pieces; // pieces.rt: line after line, and what is held of the last one

pub use pieces::{Filled, fill_last, fill_lines, refuse};
