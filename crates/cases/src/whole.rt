// The whole case of the log, run through the calls.
use crate::log::Line::{self, Add, Leave, Remove, Report, Roster, Scoring};
use crate::log::{open, run};
use model::Opening;
use squares::Shape;
use std::io;
use tables::OpenTables;

// The whole case, with its zone asked for on each level, beside it and past the wall; then a car that stands where a zone
// is added, steps within a block and between blocks, within a cell, off the map, a car that is none, and a zone taken away,
// asked for again; then a car at the east wall and in the corner of the walls, with zones that end there or a cell before;
// then teams: two spectators in a zone, a team's car with them, a second team level with it, a lead, a car that would
// change its team, a team that is none, a zone added over all, the lead lost by one leave, and the car back in the other
// team.
const SCRIPT: [Line; 56] = [
    Add(1, 5, 2, 8, 12),
    Scoring(0x40B0_0000, 0x4040_0000),
    Scoring(0x40C0_0000, 0x4000_0000),
    Scoring(0x4120_0000, 0x4130_0000),
    Scoring(0, 0),
    Scoring(0x4180_0001, 0),
    Report(7, 0, 0x40B0_0000, 0x4040_0000),
    Report(7, 0, 0x4120_0000, 0x4130_0000),
    Roster(1),
    Add(1, 0, 0, 1, 1),
    Leave(7),
    Roster(1),
    Report(3, 0, 0x4108_0000, 0x4108_0000),
    Report(3, 0, 0x4118_0000, 0x4108_0000),
    Add(0, 9, 8, 1, 1),
    Roster(0),
    Report(3, 0, 0x3F80_0000, 0x3F80_0000),
    Report(3, 0, 0x40A0_0000, 0x3F80_0000),
    Report(3, 0, 0x40A0_0000, 0x3F80_0001),
    Report(3, 0, 0x4180_0001, 0x3F80_0000),
    Report(64, 0, 0x3F80_0000, 0x3F80_0000),
    Remove(1),
    Scoring(0x4120_0000, 0x4130_0000),
    Scoring(0x4118_0000, 0x4108_0000),
    Remove(1),
    Roster(1),
    Leave(7),
    Add(2, 15, 0, 1, 16),
    Add(3, 0, 0, 15, 16),
    Report(3, 0, 0x4180_0000, 0x3F80_0000),
    Report(3, 0, 0x417F_FFFF, 0x3F80_0000),
    Report(3, 0, 0x4180_0000, 0x4180_0000),
    Add(4, 12, 12, 4, 4),
    Add(5, 12, 12, 3, 4),
    Add(6, 12, 12, 4, 3),
    Report(3, 0, 0x3F80_0000, 0x4180_0001),
    Roster(4),
    Leave(3),
    Add(1, 5, 2, 8, 12),
    Report(1, 0, 0x40B0_0000, 0x4040_0000),
    Report(2, 0, 0x40B0_0000, 0x4040_0000),
    Roster(1),
    Report(7, 3, 0x40B0_0000, 0x4040_0000),
    Roster(1),
    Report(8, 5, 0x40B0_0000, 0x4040_0000),
    Roster(1),
    Report(9, 3, 0x4120_0000, 0x4130_0000),
    Roster(1),
    Report(7, 4, 0x40B0_0000, 0x4040_0000),
    Report(10, 8, 0x40B0_0000, 0x4040_0000),
    Add(7, 0, 0, 16, 16),
    Roster(7),
    Leave(9),
    Roster(1),
    Report(9, 5, 0x4120_0000, 0x4130_0000),
    Roster(1),
];

pub fn whole_case(rt: &impl Print, s: Shape) -> io::Result<()> {
    let mut town = OpenTables {
        head: &mut [7; 6],
        zones: &mut [7; 64],
        cars: &mut [7; 64],
        spots: &mut [f32::NAN; 128],
        starts: &mut [7; 337],
        entries: &mut [7; 2048],
        rosters: &mut [7; 1024],
        tallies: &mut [7; 160],
    };
    let o = Opening {
        shape: s,
        zones: 16,
        cars: 64,
        entries: 2048,
    };
    open(rt, &mut town, o)?;
    for line in SCRIPT {
        run(rt, &mut town, line)?;
    }
    Ok(())
}
