// Cars placed, moved and taken off the map.
ghost use Rattle.tables.specs.Lent.{lent, as_read, as_written};
ghost use Rattle.promises.specs.Events.{reported, left_map};
ghost use Rattle.boundary.specs.Promises.{point, Relays};

use position::Position;
use tables::{LeaveTables, ReportTables};
use values::{tell_looked, tell_reported};

// Three values: the squares looked into, the zones entered, the zones left.
#[unsafe(no_mangle)]
pub extern "C" fn unwadegiro_report(
    head: &[u32],
    zones: &[u32],
    cars: &mut [u32],
    spots: &mut [f32],
    starts: &[u32],
    entries: &[u32],
    rosters: &mut [u8],
    tallies: &mut [u32],
    car: u32,
    team: u32,
    x: f32,
    y: f32,
    entered: &mut [u32],
    left: &mut [u32],
    values: &mut [u32],
) -> u32
    ensures { Relays 3 (lent (as_read head) (as_read zones) (as_written cars) (as_written spots) (as_read starts) (as_read entries) (as_written rosters) (as_written tallies)) (reported car team (point x y) entered left) values.old values.new result }
{
    let p = Position { x, y };
    let town = ReportTables {
        head,
        zones,
        cars,
        spots,
        starts,
        entries,
        rosters,
        tallies,
    };
    let reported = cars::report_car(town, car, team, p, entered, left);
    tell_reported(reported, values)
}

// Two values: the squares looked into, the zones left.
#[unsafe(no_mangle)]
pub extern "C" fn unwadegiro_leave(
    head: &[u32],
    zones: &[u32],
    cars: &mut [u32],
    spots: &[f32],
    starts: &[u32],
    entries: &[u32],
    rosters: &mut [u8],
    tallies: &mut [u32],
    car: u32,
    left: &mut [u32],
    values: &mut [u32],
) -> u32
    ensures { Relays 2 (lent (as_read head) (as_read zones) (as_written cars) (as_read spots) (as_read starts) (as_read entries) (as_written rosters) (as_written tallies)) (left_map car left) values.old values.new result }
{
    let town = LeaveTables {
        head,
        zones,
        cars,
        spots,
        starts,
        entries,
        rosters,
        tallies,
    };
    let gone = cars::leave_map(town, car, left);
    tell_looked(gone, values)
}
