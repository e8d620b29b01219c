// The log's lines: what a line means, and the lines of an input that comes in pieces.
#![tactic(auto)]

mod scan; // scan.rt: where a part of a list of bytes ends
mod numbers; // numbers.rt: decimals and coordinates
mod fields; // fields.rt: where a field of a line ends
mod reader; // reader.rt: a reader that hands out the fields
mod records; // records.rt: the record that a line means
mod lines; // lines.rt: the lines of an input that comes in pieces

pub use lines::{Taken, take_line};
pub use records::{Record, parse};
