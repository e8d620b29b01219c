// A town opened, zones added, moved and taken away.
ghost use Rattle.std.specs.Prelude.{[]};
ghost use Rattle.tables.specs.Lent.{lent, as_read, as_written};
ghost use Rattle.promises.specs.Events.{asked, opened, added, removed, rode};
ghost use Rattle.boundary.specs.Promises.{rect, Relays};

use model::Opening;
use squares::{Rect, Shape};
use tables::{OpenTables, ZoneTables};
use values::{tell_added, tell_done, tell_ridden};

// An empty town.
#[unsafe(no_mangle)]
pub extern "C" fn unwadegiro_open(
    head: &mut [u32],
    zones: &mut [u32],
    cars: &mut [u32],
    spots: &mut [f32],
    starts: &mut [u32],
    entries: &mut [u32],
    rosters: &mut [u8],
    tallies: &mut [u32],
    k: u32,
    P: u32,
    Q: u32,
    Z: u32,
    C: u32,
    E: u32,
) -> u32
    ensures { Relays 0 (lent (as_written head) (as_written zones) (as_written cars) (as_written spots) (as_written starts) (as_written entries) (as_written rosters) (as_written tallies)) (opened (asked k P Q Z C E)) [] [] result }
{
    let town = OpenTables {
        head,
        zones,
        cars,
        spots,
        starts,
        entries,
        rosters,
        tallies,
    };
    let o = Opening {
        shape: Shape { k, P, Q },
        zones: Z,
        cars: C,
        entries: E,
    };
    tell_done(zones::open_town(town, o))
}

// Two values: the squares of the zone's cut, the cars inside.
#[unsafe(no_mangle)]
pub extern "C" fn unwadegiro_add(
    head: &[u32],
    zones: &mut [u32],
    cars: &[u32],
    spots: &[f32],
    starts: &mut [u32],
    entries: &mut [u32],
    rosters: &mut [u8],
    tallies: &mut [u32],
    zone: u32,
    a: u32,
    b: u32,
    w: u32,
    h: u32,
    values: &mut [u32],
) -> u32
    ensures { Relays 2 (lent (as_read head) (as_written zones) (as_read cars) (as_read spots) (as_written starts) (as_written entries) (as_written rosters) (as_written tallies)) (added zone (rect a b w h)) values.old values.new result }
{
    let r = Rect { a, b, w, h };
    let town = ZoneTables {
        head,
        zones,
        cars,
        spots,
        starts,
        entries,
        rosters,
        tallies,
    };
    let added = zones::add_zone(town, zone, r);
    tell_added(added, values)
}

// A zone taken away.
#[unsafe(no_mangle)]
pub extern "C" fn unwadegiro_remove(
    head: &[u32],
    zones: &mut [u32],
    cars: &[u32],
    spots: &[f32],
    starts: &mut [u32],
    entries: &mut [u32],
    rosters: &mut [u8],
    tallies: &mut [u32],
    zone: u32,
) -> u32
    ensures { Relays 0 (lent (as_read head) (as_written zones) (as_read cars) (as_read spots) (as_written starts) (as_written entries) (as_written rosters) (as_written tallies)) (removed zone) [] [] result }
{
    let town = ZoneTables {
        head,
        zones,
        cars,
        spots,
        starts,
        entries,
        rosters,
        tallies,
    };
    tell_done(zones::remove_zone(town, zone))
}

// Four values: the squares dropped, the squares taken up, the cars entered, the cars left.
#[unsafe(no_mangle)]
pub extern "C" fn unwadegiro_ride(
    head: &[u32],
    zones: &mut [u32],
    cars: &[u32],
    spots: &[f32],
    starts: &mut [u32],
    entries: &mut [u32],
    rosters: &mut [u8],
    tallies: &mut [u32],
    zone: u32,
    dx: i32,
    dy: i32,
    entered: &mut [u32],
    left: &mut [u32],
    values: &mut [u32],
) -> u32
    ensures { Relays 4 (lent (as_read head) (as_written zones) (as_read cars) (as_read spots) (as_written starts) (as_written entries) (as_written rosters) (as_written tallies)) (rode zone dx dy entered left) values.old values.new result }
{
    let town = ZoneTables {
        head,
        zones,
        cars,
        spots,
        starts,
        entries,
        rosters,
        tallies,
    };
    let ridden = zones::ride_zone(town, zone, dx, dy, entered, left);
    tell_ridden(ridden, values)
}
