// The calls for C and Rust. A call returns 0 or the number of a refusal; what it answers besides goes into `values`.
// The parameters are flat, each table one of its own, since the C interface needs them so.
#![tactic(auto)]

mod shapes; // shapes.rt: the calls without tables
mod town; // town.rt: a town opened, zones added, moved and taken away
mod reports; // reports.rt: cars placed, moved and taken off the map
mod reads; // reads.rt: search, scoring, roster, count, holder, where a car is, and soundness
mod log; // log.rt: the log, a piece of it and its end

pub use log::{unwadegiro_log, unwadegiro_log_end};
pub use reads::{
    unwadegiro_count, unwadegiro_holder, unwadegiro_roster, unwadegiro_scoring, unwadegiro_search,
    unwadegiro_sound, unwadegiro_where,
};
pub use reports::{unwadegiro_leave, unwadegiro_report};
pub use shapes::{unwadegiro_cut, unwadegiro_lengths, unwadegiro_number, unwadegiro_square};
pub use town::{unwadegiro_add, unwadegiro_open, unwadegiro_remove, unwadegiro_ride};
