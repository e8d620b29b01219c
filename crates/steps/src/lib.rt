// One line of the log: its record's function, and its answer.
#![tactic(auto)]

mod steps; // steps.rt: one step

pub use steps::step;
