// The lent tables: their layout, the check of their lengths, and the functions that read one.
#![tactic(auto)]

mod lent; // lent.rt: the tables as they are lent to a call
mod lengths; // lengths.rt: checks 2 and 3
mod records; // records.rt: the shape and the capacities, a zone's rectangle, a car's team and position
mod places; // places.rt: a square's place among all squares
mod runs; // runs.rt: the zones on a square's list
mod rosters; // rosters.rt: a row of the rosters, read
mod tallies; // tallies.rt: a zone's tally, read

pub use lengths::roomy;
pub use lent::{LeaveTables, OpenTables, ReadTables, ReportTables, ZoneTables};
pub use places::{parent_of, place_of};
pub use records::{
    LAST_TEAM, car_between, car_room, entry_room, opened_by, placed_in, rect_in, shape_in, slot_in,
    spot_in, stands_in, team_fits, write_head, zone_room,
};
pub use rosters::list_cars;
pub use runs::{gather, gather_outside, listed};
pub use tallies::{TALLY, count_in, standing_in};
