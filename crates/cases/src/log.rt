// The calls on a town, and the lines of a log that make them: what each asks and answers, and whether the tables are sound then.
// Each list is shown with what stood in its buffer.
use crate::lent::{for_leave, for_open, for_report, for_zone};
use crate::place;
use crate::tell::{say, say_list};
use model::Opening;
use squares::Rect;
use std::io;
use tables::{OpenTables, ReadTables};

fn say_sound(rt: &impl Print, town: ReadTables<'_>) -> io::Result<()> {
    match readings::soundness_of_town(town) {
        Ok(true) => println!(rt; " sound"),
        Ok(false) => println!(rt; " unsound"),
        Err(refusal) => println!(rt; " {}", refusal.number()),
    }
}

pub fn open(rt: &impl Print, town: &mut OpenTables<'_>, o: Opening) -> io::Result<()> {
    print!(rt; "M ->")?;
    say(rt, zones::open_town(for_open(town), o))?;
    say_sound(rt, town.seen())
}

fn add(rt: &impl Print, town: &mut OpenTables<'_>, zone: u32, r: Rect) -> io::Result<()> {
    print!(rt; "A {zone} ->")?;
    say(rt, zones::add_zone(for_zone(town), zone, r))?;
    say_sound(rt, town.seen())
}

fn remove(rt: &impl Print, town: &mut OpenTables<'_>, zone: u32) -> io::Result<()> {
    print!(rt; "D {zone} ->")?;
    say(rt, zones::remove_zone(for_zone(town), zone))?;
    say_sound(rt, town.seen())
}

pub fn ride(
    rt: &impl Print,
    town: &mut OpenTables<'_>,
    zone: u32,
    columns: i32,
    rows: i32,
    entered: &mut [u32],
    left: &mut [u32],
) -> io::Result<()> {
    print!(rt; "ride {zone} {columns} {rows} ->")?;
    say(
        rt,
        zones::ride_zone(for_zone(town), zone, columns, rows, entered, left),
    )?;
    say_sound(rt, town.seen())?;
    say_list(rt, entered)?;
    say_list(rt, left)
}

fn report(
    rt: &impl Print,
    town: &mut OpenTables<'_>,
    car: u32,
    team: u32,
    x: u32,
    y: u32,
) -> io::Result<()> {
    let mut entered = [7; 16];
    let mut left = [7; 16];
    print!(rt; "P {car} ->")?;
    let p = place(x, y);
    say(
        rt,
        cars::report_car(for_report(town), car, team, p, &mut entered, &mut left),
    )?;
    say_sound(rt, town.seen())?;
    say_list(rt, &entered)?;
    say_list(rt, &left)
}

fn leave(rt: &impl Print, town: &mut OpenTables<'_>, car: u32) -> io::Result<()> {
    let mut left = [7; 16];
    print!(rt; "L {car} ->")?;
    say(rt, cars::leave_map(for_leave(town), car, &mut left))?;
    say_sound(rt, town.seen())?;
    say_list(rt, &left)
}

pub fn scoring(rt: &impl Print, town: ReadTables<'_>, x: u32, y: u32) -> io::Result<()> {
    print!(rt; "scoring {x} {y} ->")?;
    say(rt, readings::scoring_of_spot(town, place(x, y)))?;
    println!(rt)
}

pub fn count(rt: &impl Print, town: ReadTables<'_>, zone: u32) -> io::Result<()> {
    print!(rt; "count {zone} ->")?;
    say(rt, readings::count_of_zone(town, zone))?;
    println!(rt)
}

pub fn holder(rt: &impl Print, town: ReadTables<'_>, zone: u32) -> io::Result<()> {
    print!(rt; "holder {zone} ->")?;
    say(rt, readings::holder_of_zone(town, zone))?;
    println!(rt)
}

fn roster(rt: &impl Print, town: ReadTables<'_>, zone: u32) -> io::Result<()> {
    let mut out = [7; 64];
    print!(rt; "R {zone} ->")?;
    say(rt, readings::roster_of_zone(town, zone, &mut out))?;
    say_list(rt, &out)?;
    count(rt, town, zone)?;
    holder(rt, town, zone)
}

// A line of a log. A position is the bits of its two floats.
#[derive(Clone, Copy)]
pub enum Line {
    // a zone, and its rectangle's a, b, w and h
    Add(u32, u32, u32, u32, u32),
    // a zone
    Remove(u32),
    // a zone, columns to the east and rows to the north
    Ride(u32, i32, i32),
    // a car, its team and its position
    Report(u32, u32, u32, u32),
    // a car
    Leave(u32),
    // a position
    Scoring(u32, u32),
    // a zone; its count and its holder follow
    Roster(u32),
}

pub fn run(rt: &impl Print, town: &mut OpenTables<'_>, line: Line) -> io::Result<()> {
    match line {
        Line::Add(zone, a, b, w, h) => add(rt, town, zone, Rect { a, b, w, h }),
        Line::Remove(zone) => remove(rt, town, zone),
        Line::Ride(zone, columns, rows) => {
            ride(rt, town, zone, columns, rows, &mut [7; 4], &mut [7; 4])
        }
        Line::Report(car, team, x, y) => report(rt, town, car, team, x, y),
        Line::Leave(car) => leave(rt, town, car),
        Line::Scoring(x, y) => scoring(rt, town.seen(), x, y),
        Line::Roster(zone) => roster(rt, town.seen(), zone),
    }
}
