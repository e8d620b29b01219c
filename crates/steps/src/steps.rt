// One step: a line in, its answer out.
ghost use Rattle.tables.specs.Lent.{given_open, lent_open};
ghost use Rattle.season.specs.Output.{line_of};
ghost use Rattle.room.specs.Room.{Roomed};
ghost use Rattle.records.specs.Replies.{Replies};

use line::Record;
use records::{
    add_record, leave_record, open_record, remove_record, report_record, roster_record,
    search_record,
};
use squares::Rect;
use tables::{LeaveTables, OpenTables, ReadTables, ReportTables, ZoneTables};

// Does what a line says, and writes its answer to the front of the buffer. Answers how long it is.
pub fn step(town: OpenTables<'_>, line: &[u8], out: &mut [u8]) -> usize
    requires { Roomed (given_open town) }
    ensures { Replies (lent_open town) (line_of line.now) out.old out.new result }
{
    let OpenTables {
        head,
        zones,
        cars,
        spots,
        starts,
        entries,
        rosters,
        tallies,
    } = town;
    match line::parse(line) {
        Record::Bad => texts::write_bad(out),
        Record::Open(k, P, Q) => {
            let town = OpenTables {
                head,
                zones,
                cars,
                spots,
                starts,
                entries,
                rosters,
                tallies,
            };
            open_record(town, k, P, Q, out)
        }
        Record::Add(zone, a, b, w, h) => {
            let town = ZoneTables {
                head,
                zones,
                cars,
                spots,
                starts,
                entries,
                rosters,
                tallies,
            };
            add_record(town, zone, Rect { a, b, w, h }, out)
        }
        Record::Remove(zone) => {
            let town = ZoneTables {
                head,
                zones,
                cars,
                spots,
                starts,
                entries,
                rosters,
                tallies,
            };
            remove_record(town, zone, out)
        }
        Record::Report(car, x, y) => {
            let town = ReportTables {
                head,
                zones,
                cars,
                spots,
                starts,
                entries,
                rosters,
                tallies,
            };
            report_record(town, car, x, y, out)
        }
        Record::Leave(car) => {
            let town = LeaveTables {
                head,
                zones,
                cars,
                spots,
                starts,
                entries,
                rosters,
                tallies,
            };
            leave_record(town, car, out)
        }
        Record::Search(x, y) => {
            let town = ReadTables {
                head,
                zones,
                cars,
                spots,
                starts,
                entries,
                rosters,
                tallies,
            };
            search_record(town, x, y, out)
        }
        Record::Roster(zone) => {
            let town = ReadTables {
                head,
                zones,
                cars,
                spots,
                starts,
                entries,
                rosters,
                tallies,
            };
            roster_record(town, zone, out)
        }
    }
}
