// Cars placed, moved and taken off the map.
#![tactic(auto)]

mod report; // report.rt: a car placed or moved
mod leave; // leave.rt: a car taken off the map

pub use leave::leave_map;
pub use report::report_car;
