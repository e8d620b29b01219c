// A zone's row set anew, and the cars that come on it and go from it.
// The cars that come and those that go are written to two buffers, as C lends them, each by itself.
ghost use Rattle.std.specs.Prelude.{◌*◌, ◌≤◌, ◌≡◌, length};
ghost use Rattle.squares.specs.Bounds.{Fits};
ghost use Rattle.tables.specs.Slots.{car_between};
ghost use Rattle.tables.specs.Rows.{RowThere};
ghost use Rattle.tables.specs.Asks.{Parked};
ghost use Rattle.rosters.specs.Ridden.{Notes, Turns, Rides, RowRidden};

use position::{Bands, bands_of};
use squares::{Rect, Shape};
use tables::car_between;

// How many cars a ride brought in, and how many it left behind.
#[derive(Clone, Copy)]
pub struct CarsMoved {
    pub entered: usize,
    pub left: usize,
}

// Stores car c where one byte is not 0 and another is. Answers the next place.
fn note(byte: u8, other: u8, c: u32, out: &mut [u32], next: usize) -> usize
    requires { next ≤ 1024 }
    ensures { Notes byte other c out.old out.new next result }
{
    if byte != 0 && other == 0 {
        order::store(out, next, c);
        return next + 1;
    }
    next
}

// Stores car c in one buffer where its new byte is a mark and its old one none, in the other where it is the other way round.
// Answers how many cars each buffer has now.
fn turn(
    old: u8,
    byte: u8,
    c: usize,
    entered: &mut [u32],
    left: &mut [u32],
    before: CarsMoved,
) -> CarsMoved
    requires c_bound { c ≤ 1024 }
    requires entered_bound { before.entered ≤ 1024 }
    requires left_bound { before.left ≤ 1024 }
    ensures { Turns old byte c entered.old entered.new left.old left.new before.entered before.left result.entered result.left }
{
    if byte == old {
        return before;
    }
    let car = c as u32;
    let came = note(byte, old, car, entered, before.entered);
    let went = note(old, byte, car, left, before.left);
    CarsMoved {
        entered: came,
        left: went,
    }
}

// Sets the byte of each car of a row. Stores the cars that come into the cells of two bands, and those that go from there.
fn ride_cars(
    cars: &[u32],
    spots: &[f32],
    bands: Bands,
    row: &mut [u8],
    entered: &mut [u32],
    left: &mut [u32],
) -> CarsMoved
    requires cars_len { length cars.now ≡ length row.old }
    requires spots_len { length spots.now ≡ 2 * length row.old }
    requires row_len_bound { length row.old ≤ 1024 }
    ensures { Rides (car_between cars.now spots.now bands.columns bands.rows) row.old row.new entered.old entered.new left.old left.new result.entered result.left }
{
    let mut moved = CarsMoved {
        entered: 0,
        left: 0,
    };
    for c in 0..row.len() {
        let byte = u8::from(car_between(cars, spots, bands, c));
        let old = row[c];
        row[c] = byte;
        moved = turn(old, byte, c, entered, left, moved);
    }
    moved
}

// Sets a zone's row of so many bytes: the cars in the rectangle. Writes those that had no mark before to one buffer, those that
// have none now to another. Answers how many they are.
pub fn ride_row(
    s: Shape,
    cars: &[u32],
    spots: &[f32],
    r: Rect,
    rosters: &mut [u8],
    z: usize,
    many: u32,
    entered: &mut [u32],
    left: &mut [u32],
) -> CarsMoved
    requires parked { Parked s cars.now spots.now many }
    requires row_there { RowThere rosters.old z many }
    requires fits { Fits s r }
    requires many_in_bounds { many ≤ length entered.old }
    requires many_in_bounds_2 { many ≤ length left.old }
    ensures { RowRidden s cars.now spots.now r rosters.old rosters.new z many entered.old entered.new left.old left.new result.entered result.left }
{
    let from = z * many as usize;
    let end = from + many as usize;
    let bands = bands_of(s, r);
    ride_cars(cars, spots, bands, &mut rosters[from..end], entered, left)
}
