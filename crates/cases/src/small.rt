// A small town: opened, then with a zone and a car written by hand, then with one number wrong at a time; and rides in it.
use crate::lent::lend;
use crate::log::{count, holder, ride, scoring};
use crate::place;
use crate::tell::{say, say_list};
use model::Opening;
use squares::Shape;
use std::io;
use tables::{OpenTables, ReadTables};

// The tables of one block of four cells: 2 zones, 2 cars, 4 entries, 5 squares.
#[derive(Clone, Copy)]
struct Small {
    head: [u32; 6],
    zones: [u32; 8],
    cars: [u32; 2],
    spots: [f32; 4],
    starts: [u32; 6],
    entries: [u32; 4],
    rosters: [u8; 4],
    tallies: [u32; 20],
}

impl Small {
    fn read(&self) -> ReadTables<'_> {
        lend!(self, Small as ReadTables)
    }

    fn open(&mut self) -> OpenTables<'_> {
        lend!(self, Small as OpenTables)
    }
}

const FREE: u32 = 0xFFFF_FFFF;

// Zone 1 is the southern two cells, and car 0, of team 2, is in the southeast one.
fn standing() -> Small {
    Small {
        head: [1, 1, 1, 2, 2, 4],
        zones: [0, 0, 0, 0, 0, 0, 2, 1],
        cars: [3, 0],
        spots: [1.5, 0.5, 0.0, 0.0],
        starts: [0, 0, 1, 2, 2, 2],
        entries: [257, 513, FREE, FREE],
        rosters: [0, 0, 1, 0],
        tallies: [0, 0, 0, 0, 0, 0, 0, 0, 0, 0, 1, 0, 0, 1, 0, 0, 0, 0, 0, 2],
    }
}

// The same zone a row further north, where no car is.
fn north() -> Small {
    let mut t = standing();
    t.zones[5] = 1;
    t.starts = [0, 0, 0, 0, 1, 2];
    t.entries = [769, 1025, FREE, FREE];
    t.rosters = [0; 4];
    t.tallies = [0; 20];
    t
}

fn soundness(rt: &impl Print, said: &str, t: &Small) -> io::Result<()> {
    print!(rt; "{said} sound ->")?;
    say(rt, readings::soundness_of_town(t.read()))?;
    println!(rt)
}

fn opened(rt: &impl Print) -> io::Result<()> {
    let mut t = Small {
        head: [7; 6],
        zones: [7; 8],
        cars: [7; 2],
        spots: [f32::NAN; 4],
        starts: [7; 6],
        entries: [7; 4],
        rosters: [7; 4],
        tallies: [7; 20],
    };
    soundness(rt, "garbage:", &t)?;
    print!(rt; "open 1 1 1: 2 2 4 ->")?;
    let o = Opening {
        shape: Shape { k: 1, P: 1, Q: 1 },
        zones: 2,
        cars: 2,
        entries: 4,
    };
    say(rt, zones::open_town(t.open(), o))?;
    println!(rt)?;
    soundness(rt, "opened:", &t)
}

fn search(
    rt: &impl Print,
    town: ReadTables<'_>,
    x: u32,
    y: u32,
    out: &mut [u32],
) -> io::Result<()> {
    print!(rt; "search {x} {y} ->")?;
    say(rt, readings::search_zones(town, place(x, y), out))?;
    say_list(rt, out)
}

fn roster(rt: &impl Print, town: ReadTables<'_>, zone: u32, out: &mut [u32]) -> io::Result<()> {
    print!(rt; "roster {zone} ->")?;
    say(rt, readings::roster_of_zone(town, zone, out))?;
    say_list(rt, out)
}

// The cell that a car is in.
fn where_car(rt: &impl Print, town: ReadTables<'_>, car: u32) -> io::Result<()> {
    let s = Shape { k: 1, P: 1, Q: 1 };
    print!(rt; "where {car} ->")?;
    let at = readings::where_is_car(town, car);
    say(rt, at.map(|p| position::locate(s, p)))?;
    println!(rt)
}

// Two in the zone and one just north of it, at the east wall and past it, at the north wall, and a zero with its sign.
const PLACES: [(u32, u32); 7] = [
    (0x3FC0_0000, 0x3F00_0000),
    (0x3F00_0000, 0x0000_0000),
    (0x3F00_0000, 0x3F80_0000),
    (0x4000_0000, 0x0000_0000),
    (0x4000_0001, 0x0000_0000),
    (0x0000_0000, 0x4000_0000),
    (0x8000_0000, 0x0000_0000),
];

fn reads(rt: &impl Print) -> io::Result<()> {
    let standing = standing();
    let town = standing.read();
    let mut out = [7; 3];
    for (x, y) in PLACES {
        search(rt, town, x, y, &mut out)?;
    }
    for (x, y) in PLACES {
        scoring(rt, town, x, y)?;
    }
    for zone in [1, 0, 2] {
        roster(rt, town, zone, &mut out)?;
    }
    let mut short = [7; 1];
    search(rt, town, 0x3F00_0000, 0x0000_0000, &mut short)?;
    roster(rt, town, 1, &mut short)?;
    for zone in [1, 0, 2] {
        count(rt, town, zone)?;
    }
    for zone in [1, 0, 2] {
        holder(rt, town, zone)?;
    }
    for car in 0..3 {
        where_car(rt, town, car)?;
    }
    Ok(())
}

// Whether the standing town is sound after a change.
fn changed<F: FnOnce(&mut Small)>(rt: &impl Print, said: &str, change: F) -> io::Result<()>
    requires { F.IsAlwaysCallable change }
{
    let mut t = standing();
    change(&mut t);
    soundness(rt, said, &t)
}

// Records that mean nothing do not matter; every other number does.
fn records(rt: &impl Print) -> io::Result<()> {
    changed(rt, "idle records", |t| {
        t.zones[0] = 9;
        t.zones[3] = 9;
        t.spots[2] = f32::NAN;
    })?;
    changed(rt, "rectangle beyond the town", |t| t.zones[4] = u32::MAX)?;
    changed(rt, "position not on the map", |t| t.spots[0] = f32::NAN)?;
    changed(rt, "car at the east wall", |t| t.spots[0] = 2.0)?;
    changed(
        rt,
        "car past the east wall",
        |t| t.spots[0] = 2.0f32.next_up(),
    )?;
    changed(rt, "car elsewhere", |t| t.spots[1] = 1.5)?;
    changed(rt, "car in another team", |t| t.cars[0] = 4)?;
    changed(rt, "car in a team above 7", |t| t.cars[0] = 9)?;
    changed(rt, "capacity and length apart", |t| t.head[5] = 5)
}

fn derived(rt: &impl Print) -> io::Result<()> {
    changed(rt, "keys out of order", |t| t.entries.swap(0, 1))?;
    changed(rt, "an entry twice", |t| {
        t.entries[2] = 513;
        t.starts[5] = 3;
    })?;
    changed(rt, "a free mark too few", |t| t.entries[3] = 0)?;
    changed(rt, "runs that overlap", |t| t.starts[2] = 0)?;
    changed(rt, "a start past the end", |t| t.starts[5] = u32::MAX)?;
    changed(rt, "a roster byte of 2", |t| t.rosters[2] = 2)?;
    changed(rt, "a car missing", |t| t.rosters[2] = 0)?;
    changed(rt, "a car counted twice", |t| t.tallies[10] = 2)?;
    changed(rt, "a count where no zone stands", |t| t.tallies[0] = 1)?;
    changed(rt, "a car counted for another team", |t| {
        t.tallies[13] = 0;
        t.tallies[14] = 1;
    })?;
    changed(rt, "a zone held by nobody", |t| t.tallies[19] = 0)
}

// A ride, with buffers of 7s that have room.
fn ride_in(rt: &impl Print, mut t: Small, zone: u32, columns: i32, rows: i32) -> io::Result<()> {
    ride(
        rt,
        &mut t.open(),
        zone,
        columns,
        rows,
        &mut [7; 3],
        &mut [7; 3],
    )
}

// Off each edge by one, and by as much as there is.
fn off_edges(rt: &impl Print) -> io::Result<()> {
    for (columns, rows) in [
        (-1, 0),
        (1, 0),
        (0, -1),
        (0, 2),
        (i32::MIN, 0),
        (i32::MAX, 0),
        (0, i32::MIN),
        (0, i32::MAX),
    ] {
        ride_in(rt, standing(), 1, columns, rows)?;
    }
    Ok(())
}

// The other refusals but 12, each before what would refuse it later, each buffer one short; then by nothing, to the north, and
// from there to the south.
fn rides(rt: &impl Print) -> io::Result<()> {
    let mut capacity = standing();
    capacity.head[5] = 5;
    print!(rt; "capacity and length apart: ")?;
    ride_in(rt, capacity, 2, 0, 0)?;
    ride_in(rt, standing(), 2, -1, 0)?;
    ride_in(rt, standing(), 0, -1, 0)?;
    let mut town = standing();
    let mut short = [7; 1];
    let mut enough = [7; 2];
    ride(rt, &mut town.open(), 1, -1, 0, &mut short, &mut enough)?;
    ride(rt, &mut town.open(), 1, 0, 1, &mut short, &mut enough)?;
    ride(rt, &mut town.open(), 1, 0, 1, &mut enough, &mut short)?;
    ride_in(rt, standing(), 1, 0, 0)?;
    ride_in(rt, standing(), 1, 0, 1)?;
    print!(rt; "north: ")?;
    ride_in(rt, north(), 1, 0, -1)
}

pub fn small_town(rt: &impl Print) -> io::Result<()> {
    opened(rt)?;
    soundness(rt, "standing", &standing())?;
    reads(rt)?;
    records(rt)?;
    derived(rt)?;
    off_edges(rt)?;
    rides(rt)
}
