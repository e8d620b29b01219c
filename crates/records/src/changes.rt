// The records that change the tables: M, A, D, P and L.
ghost use Rattle.tables.specs.Lent.{lent, as_read, as_written, given_open, given_zone, given_report, given_leave, lent_open, lent_zone, lent_report, lent_leave};
ghost use Rattle.promises.specs.Promise.{Keeps};
ghost use Rattle.promises.specs.Events.{asked, opened, added, removed};
ghost use Rattle.season.specs.Output.{call_of};
ghost use Rattle.room.specs.Room.{Roomed};
ghost use Rattle.records.specs.Replies.{Replies};
ghost use Rattle.line.specs.declared.records.Record.TheVariants.{Open, Add, Remove, Report, Leave};

use model::{Added, Opening};
use room::{open_room, places_in, position_of, tame_added};
use squares::{Rect, Refusal, Shape};
use tables::{LeaveTables, OpenTables, ReportTables, ZoneTables};
use texts::{write_added, write_left, write_opened, write_removed, write_reported};

// An open in a part of the starts. They are an argument of their own: of a part of a slice that is lent in a struct the check
// does not know what a call leaves there. So in `add_in` and `remove_in`.
fn open_in(
    head: &mut [u32],
    zones: &mut [u32],
    cars: &mut [u32],
    spots: &mut [f32],
    starts: &mut [u32],
    entries: &mut [u32],
    rosters: &mut [u8],
    tallies: &mut [u32],
    k: u32,
    P: u32,
    Q: u32,
) -> Result<(), Refusal>
    ensures { Keeps (lent (as_written head) (as_written zones) (as_written cars) (as_written spots) (as_written starts) (as_written entries) (as_written rosters) (as_written tallies)) (opened (asked k P Q 16 64 2048) result) }
{
    let town = OpenTables {
        head,
        zones,
        cars,
        spots,
        starts,
        entries,
        rosters,
        tallies,
    };
    let o = Opening {
        shape: Shape { k, P, Q },
        zones: 16,
        cars: 64,
        entries: 2048,
    };
    zones::open_town(town, o)
}

// M: a town of at most 64 by 64, with 16 zones, 64 cars and 2,048 entries.
pub fn open_record(town: OpenTables<'_>, k: u32, P: u32, Q: u32, out: &mut [u8]) -> usize
    requires { Roomed (given_open town) }
    ensures { Replies (lent_open town) (call_of (Open k P Q)) out.old out.new result }
{
    match open_room(k, P, Q) {
        Err(r) => write_opened(Err(r), out),
        Ok(many) => {
            let OpenTables {
                head,
                zones,
                cars,
                spots,
                starts,
                entries,
                rosters,
                tallies,
            } = town;
            let answer = open_in(
                head,
                zones,
                cars,
                spots,
                &mut starts[..many],
                entries,
                rosters,
                tallies,
                k,
                P,
                Q,
            );
            write_opened(answer, out)
        }
    }
}

// A zone added in a part of the starts.
fn add_in(
    head: &[u32],
    zones: &mut [u32],
    cars: &[u32],
    spots: &[f32],
    starts: &mut [u32],
    entries: &mut [u32],
    rosters: &mut [u8],
    tallies: &mut [u32],
    zone: u32,
    r: Rect,
) -> Result<Added, Refusal>
    ensures { Keeps (lent (as_read head) (as_written zones) (as_read cars) (as_read spots) (as_written starts) (as_written entries) (as_written rosters) (as_written tallies)) (added zone r result) }
{
    let town = ZoneTables {
        head,
        zones,
        cars,
        spots,
        starts,
        entries,
        rosters,
        tallies,
    };
    zones::add_zone(town, zone, r)
}

// A: a zone added.
pub fn add_record(town: ZoneTables<'_>, zone: u32, r: Rect, out: &mut [u8]) -> usize
    requires { Roomed (given_zone town) }
    ensures { Replies (lent_zone town) (call_of (Add zone r.a r.b r.w r.h)) out.old out.new result }
{
    let ZoneTables {
        head,
        zones,
        cars,
        spots,
        starts,
        entries,
        rosters,
        tallies,
    } = town;
    let many = places_in(head, starts);
    let answer = add_in(
        head,
        zones,
        cars,
        spots,
        &mut starts[..many],
        entries,
        rosters,
        tallies,
        zone,
        r,
    );
    write_added(tame_added(answer), out)
}

// A zone taken away in a part of the starts.
fn remove_in(
    head: &[u32],
    zones: &mut [u32],
    cars: &[u32],
    spots: &[f32],
    starts: &mut [u32],
    entries: &mut [u32],
    rosters: &mut [u8],
    tallies: &mut [u32],
    zone: u32,
) -> Result<(), Refusal>
    ensures { Keeps (lent (as_read head) (as_written zones) (as_read cars) (as_read spots) (as_written starts) (as_written entries) (as_written rosters) (as_written tallies)) (removed zone result) }
{
    let town = ZoneTables {
        head,
        zones,
        cars,
        spots,
        starts,
        entries,
        rosters,
        tallies,
    };
    zones::remove_zone(town, zone)
}

// D: a zone taken away.
pub fn remove_record(town: ZoneTables<'_>, zone: u32, out: &mut [u8]) -> usize
    requires { Roomed (given_zone town) }
    ensures { Replies (lent_zone town) (call_of (Remove zone)) out.old out.new result }
{
    let ZoneTables {
        head,
        zones,
        cars,
        spots,
        starts,
        entries,
        rosters,
        tallies,
    } = town;
    let many = places_in(head, starts);
    let answer = remove_in(
        head,
        zones,
        cars,
        spots,
        &mut starts[..many],
        entries,
        rosters,
        tallies,
        zone,
    );
    write_removed(answer, out)
}

// x and y are two patterns of bits, of which `position_of` makes the position.
// P: a car placed or moved. A log has no teams: each car's is 0.
pub fn report_record(town: ReportTables<'_>, car: u32, x: u32, y: u32, out: &mut [u8]) -> usize
    requires { Roomed (given_report town) }
    ensures { Replies (lent_report town) (call_of (Report car x y)) out.old out.new result }
{
    let ReportTables {
        head,
        zones,
        cars,
        spots,
        starts,
        entries,
        rosters,
        tallies,
    } = town;
    let many = places_in(head, starts);
    let lent = ReportTables {
        head,
        zones,
        cars,
        spots,
        starts: &starts[..many],
        entries,
        rosters,
        tallies,
    };
    let mut entered = [0u32; 16];
    let mut left = [0u32; 16];
    let answer = cars::report_car(lent, car, 0, position_of(x, y), &mut entered, &mut left);
    write_reported(answer, &entered, &left, out)
}

// L: a car taken off the map.
pub fn leave_record(town: LeaveTables<'_>, car: u32, out: &mut [u8]) -> usize
    requires { Roomed (given_leave town) }
    ensures { Replies (lent_leave town) (call_of (Leave car)) out.old out.new result }
{
    let LeaveTables {
        head,
        zones,
        cars,
        spots,
        starts,
        entries,
        rosters,
        tallies,
    } = town;
    let many = places_in(head, starts);
    let lent = LeaveTables {
        head,
        zones,
        cars,
        spots,
        starts: &starts[..many],
        entries,
        rosters,
        tallies,
    };
    let mut left = [0u32; 16];
    let answer = cars::leave_map(lent, car, &mut left);
    write_left(answer, &left, out)
}
