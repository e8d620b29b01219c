// The cars in a rectangle, marked on a row of the rosters.
ghost use Rattle.std.specs.Prelude.{◌*◌, ◌≡◌, length};
ghost use Rattle.squares.specs.Bounds.{Fits};
ghost use Rattle.rosters.specs.Inside.{Marks, RowMarked};
ghost use Rattle.tables.specs.Slots.{car_between};
ghost use Rattle.tables.specs.Rows.{RowThere};
ghost use Rattle.tables.specs.Asks.{Parked};

use position::{Bands, bands_of};
use squares::{Rect, Shape};
use tables::car_between;

// Sets the byte of each car of a row. Answers how many are in the cells of two bands.
fn mark_cars(cars: &[u32], spots: &[f32], bands: Bands, row: &mut [u8]) -> usize
    requires cars_len { length cars.now ≡ length row.old }
    requires spots_len { length spots.now ≡ 2 * length row.old }
    ensures { Marks (car_between cars.now spots.now bands.columns bands.rows) row.old row.new result }
{
    let mut inside = 0;
    for c in 0..row.len() {
        let byte = u8::from(car_between(cars, spots, bands, c));
        row[c] = byte;
        inside += usize::from(byte);
    }
    inside
}

// Sets a zone's row of so many bytes: the cars in the rectangle. Answers how many they are.
pub fn fill_row(
    s: Shape,
    cars: &[u32],
    spots: &[f32],
    r: Rect,
    rosters: &mut [u8],
    z: usize,
    many: u32,
) -> usize
    requires parked { Parked s cars.now spots.now many }
    requires row_there { RowThere rosters.old z many }
    requires fits { Fits s r }
    ensures { RowMarked s cars.now spots.now r rosters.old rosters.new z many result }
{
    let from = z * many as usize;
    let end = from + many as usize;
    let bands = bands_of(s, r);
    mark_cars(cars, spots, bands, &mut rosters[from..end])
}
