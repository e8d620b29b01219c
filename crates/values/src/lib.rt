// What a call tells a caller in another language: one number returned, and values in a lent array.
#![tactic(auto)]

mod tell; // tell.rt: a number returned, and values stored
mod answers; // answers.rt: each call's answer told

pub use answers::{
    tell_added, tell_done, tell_holder, tell_looked, tell_number, tell_reported, tell_ridden,
    tell_scoring, tell_soundness, tell_square, tell_where, tell_written,
};
pub use tell::{tell_all, tell_refusal, tell_values};
