// The log, answered piece by piece.
#![tactic(auto)]

mod answers; // answers.rt: a piece of the log, and its end

pub use answers::{answer_end, answer_piece};
