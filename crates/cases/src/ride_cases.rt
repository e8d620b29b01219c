// Rides in a town of 8 by 4 cells, with room for 3 zones, 4 cars and 8 entries.
use crate::log::Line::{self, Add, Remove, Report, Ride, Roster, Scoring};
use crate::log::{open, run};
use model::Opening;
use squares::Shape;
use std::io;
use tables::OpenTables;

// Four cars, one at the east wall, and two zones; a ride that has no room, one that keeps a square; one that has room where an
// add of the same rectangle has none, with a car that enters, one that leaves and one that stays; one that a car at the wall
// enters by; and, from the west wall again, one by the zone's width.
const SCRIPT: [Line; 19] = [
    Report(0, 1, 0x3FC0_0000, 0x3F00_0000),
    Report(1, 2, 0x4060_0000, 0x3FC0_0000),
    Report(2, 3, 0x40B0_0000, 0x3F00_0000),
    Report(3, 3, 0x4100_0000, 0x3FC0_0000),
    Add(0, 0, 0, 4, 2),
    Add(1, 6, 2, 2, 1),
    Ride(0, 1, 1),
    Ride(0, 1, 0),
    Add(2, 3, 0, 4, 2),
    Ride(0, 2, 0),
    Roster(0),
    Scoring(0x40D0_0000, 0x3F00_0000),
    Scoring(0x4020_0000, 0x3F00_0000),
    Ride(0, 1, 0),
    Roster(0),
    Remove(0),
    Add(0, 0, 0, 4, 2),
    Ride(0, 4, 0),
    Roster(0),
];

pub fn ride_case(rt: &impl Print, s: Shape) -> io::Result<()> {
    let mut town = OpenTables {
        head: &mut [7; 6],
        zones: &mut [7; 12],
        cars: &mut [7; 4],
        spots: &mut [f32::NAN; 8],
        starts: &mut [7; 41],
        entries: &mut [7; 8],
        rosters: &mut [7; 12],
        tallies: &mut [7; 30],
    };
    let o = Opening {
        shape: s,
        zones: 3,
        cars: 4,
        entries: 8,
    };
    open(rt, &mut town, o)?;
    for line in SCRIPT {
        run(rt, &mut town, line)?;
    }
    Ok(())
}
