// Cases of the rules, run through the calls. Each line is what was asked and what was answered:
// the refusal number, or 0 and the values.
#![tactic(auto)]

mod tell; // tell.rt: what is answered, as it is written
mod lent; // lent.rt: the eight tables, lent on as each call takes them
mod log; // log.rt: the calls on a town, and lines of a log that make them
mod whole; // whole.rt: the whole case of the log
mod ride_cases; // ride_cases.rt: zones that ride
mod small; // small.rt: a small town, sound and then with one number wrong at a time

use position::{Position, float_of};
use squares::{Rect, Shape};
use std::fmt::Display;
use std::io;
use tell::{Tell, say, say_list};

pub fn place(x: u32, y: u32) -> Position {
    Position {
        x: float_of(x),
        y: float_of(y),
    }
}

fn numbers(rt: &impl Print, s: Shape) -> io::Result<()> {
    let Shape { k, P, Q } = s;
    for (level, x, y) in [
        (2, 10, 11),
        (1, 10, 10),
        (0, 8, 8),
        (1, 9, 10),
        (3, 0, 0),
        (2, 16, 0),
        (2, 0, 16),
        (u32::MAX, u32::MAX, u32::MAX),
    ] {
        print!(rt; "number {k} {P} {Q}: {level} {x} {y} ->")?;
        say(rt, grid::number_of_square(k, P, Q, level, x, y))?;
        println!(rt)?;
    }
    for (level, n) in [(2, 174), (1, 43), (0, 10), (2, 255), (2, 256), (3, 0)] {
        print!(rt; "square {k} {P} {Q}: {level} {n} ->")?;
        say(rt, grid::square_of_number(k, P, Q, level, n))?;
        println!(rt)?;
    }
    Ok(())
}

// The cut of the rectangle a, b, w, h: the count, and the buffer's first eight numbers, which are 7 before.
fn cut_of(rt: &impl Print, s: Shape, r: (u32, u32, u32, u32), out: &mut [u32]) -> io::Result<()> {
    let Shape { k, P, Q } = s;
    let (a, b, w, h) = r;
    print!(rt; "cut {k} {P} {Q}: {a} {b} {w} {h} ->")?;
    say(
        rt,
        grid::cut_of_rectangle(k, P, Q, Rect { a, b, w, h }, out),
    )?;
    say_list(rt, out)
}

fn cuts(rt: &impl Print, s: Shape) -> io::Result<()> {
    for r in [
        (5, 2, 8, 12),
        (0, 0, 16, 16),
        (0, 0, 1, 1),
        (8, 0, 8, 1),
        (8, 0, 9, 1),
        (u32::MAX, 0, 1, 1),
        (1, 0, u32::MAX, 1),
        (0, 1, 1, u32::MAX),
        (0, 0, 0, 1),
        (0, 0, 1, 0),
    ] {
        cut_of(rt, s, r, &mut [7; 64])?;
    }
    let mut short = [7; 4];
    cut_of(rt, s, (0, 0, 4, 5), &mut short)?;
    cut_of(rt, s, (0, 0, 4, 4), &mut short)
}

fn shapes(rt: &impl Print) -> io::Result<()> {
    for (k, P, Q, r) in [
        (0, 3, 2, (1, 0, 2, 2)),
        (5, 8, 8, (0, 0, 256, 256)),
        (5, 9, 8, (0, 0, 1, 1)),
        (6, 1, 1, (0, 0, 1, 1)),
        (5, 134217736, 1, (0, 0, 1, 1)),
        (2, 0, 1, (0, 0, 1, 1)),
        (0, 256, 256, (255, 255, 1, 1)),
        (u32::MAX, 1, 1, (0, 0, 1, 1)),
    ] {
        cut_of(rt, Shape { k, P, Q }, r, &mut [7; 64])?;
    }
    Ok(())
}

fn cells(rt: &impl Print, floats: &[u32]) -> io::Result<()> {
    for bits in floats {
        print!(rt; "cell 256: {bits} ->")?;
        position::cell_of(float_of(*bits), 256).tell(rt)?;
        println!(rt)?;
    }
    Ok(())
}

// Zeros, infinities, NaNs quiet and signalling, the least and the greatest subnormal, a sign bit.
const ODD_FLOATS: [u32; 13] = [
    0x0000_0000,
    0x8000_0000,
    0x7F80_0000,
    0xFF80_0000,
    0x7FC0_0000,
    0xFFC0_0000,
    0x7F80_0001,
    0xFF80_0001,
    0x0000_0001,
    0x007F_FFFF,
    0x8000_0001,
    0xBF80_0000,
    0x7F7F_FFFF,
];

// The float just below each power of two up to 256, and the power; then the next above the side.
const NEAR_POWERS: [u32; 19] = [
    0x3F7F_FFFF,
    0x3F80_0000,
    0x3FFF_FFFF,
    0x4000_0000,
    0x407F_FFFF,
    0x4080_0000,
    0x40FF_FFFF,
    0x4100_0000,
    0x417F_FFFF,
    0x4180_0000,
    0x41FF_FFFF,
    0x4200_0000,
    0x427F_FFFF,
    0x4280_0000,
    0x42FF_FFFF,
    0x4300_0000,
    0x437F_FFFF,
    0x4380_0000,
    0x4380_0001,
];

fn spots(rt: &impl Print, s: Shape, places: &[(u32, u32)]) -> io::Result<()> {
    let Shape { k, P, Q } = s;
    for (x, y) in places {
        print!(rt; "spot {k} {P} {Q}: {x} {y} ->")?;
        position::locate(s, place(*x, *y)).tell(rt)?;
        println!(rt)?;
    }
    Ok(())
}

const SPOTS: [(u32, u32); 8] = [
    (0x40B0_0000, 0x4040_0000),
    (0x4120_0000, 0x4130_0000),
    (0x417F_FFFF, 0x0000_0000),
    (0x4180_0000, 0x0000_0000),
    (0x4180_0001, 0x0000_0000),
    (0x0000_0000, 0x4180_0000),
    (0x0000_0000, 0x4180_0001),
    (0x0000_0000, 0x7FC0_0000),
];

// In a town of 12 by 8: about the east wall, about the north wall, their corner, and each wall for the other side.
const WALLS: [(u32, u32); 10] = [
    (0x413F_FFFF, 0x0000_0000),
    (0x4140_0000, 0x0000_0000),
    (0x4140_0001, 0x0000_0000),
    (0x8000_0000, 0x40FF_FFFF),
    (0x8000_0000, 0x4100_0000),
    (0x8000_0000, 0x4100_0001),
    (0x4140_0000, 0x4100_0000),
    (0x4100_0000, 0x4100_0000),
    (0x4100_0000, 0x4140_0000),
    (0xC140_0000, 0x0000_0000),
];

fn all(rt: &impl Print) -> io::Result<()> {
    let town = Shape { k: 2, P: 4, Q: 4 };
    numbers(rt, town)?;
    cuts(rt, town)?;
    shapes(rt)?;
    cells(rt, &ODD_FLOATS)?;
    cells(rt, &NEAR_POWERS)?;
    spots(rt, town, &SPOTS)?;
    spots(rt, Shape { k: 6, P: 1, Q: 1 }, &[(0, 0)])?;
    spots(rt, Shape { k: 2, P: 3, Q: 2 }, &WALLS)?;
    small::small_town(rt)?;
    whole::whole_case(rt, town)?;
    ride_cases::ride_case(rt, Shape { k: 1, P: 4, Q: 2 })
}

// Prints on where a write failed: what could not be written is left out, and the cases go on.
#[derive(Clone, Copy)]
struct Onward<'a, R>(&'a R);

impl<R: Print> Print for Onward<'_, R> {
    fn print<D: Display + Drop>(&self, value: D) -> io::Result<()> {
        let _ = self.0.print(value);
        Ok(())
    }

    fn println<D: Display + Drop>(&self, value: D) -> io::Result<()> {
        let _ = self.0.println(value);
        Ok(())
    }

    fn write_all(&self, bytes: &[u8]) -> io::Result<()> {
        let _ = self.0.write_all(bytes);
        Ok(())
    }
}

fn main(rt: HostRuntime) {
    let _ = all(&Onward(&rt));
}
