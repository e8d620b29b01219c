// The text of an answer: letters, numbers and lists, written to a lent buffer.
#![tactic(auto)]

mod answers; // answers.rt: a letter and its fields, each after a tab

pub use answers::{write_list, write_lists, write_number, write_numbers};
