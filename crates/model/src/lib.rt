// What a town is and what each call does and answers; of code, what an open is given and what the calls answer.
#![tactic(auto)]

mod opening; // opening.rt: what an open is given
mod answers; // answers.rt: what the calls answer

pub use answers::{Added, Crossed, Looked, Ridden, Scoring, Standing};
pub use opening::Opening;
