// A float's cell (document 01, "Positions"): whether a coordinate is on the map, and in which cell.
// Whether it is on the map is told by comparing floats; the cell is worked out on the bits, in whole numbers.
#![tactic(auto)]

mod band; // band.rt: the floats of a stretch of cells

ghost use Rattle.std.specs.Prelude.{◌≡◌, ◌+◌, ◌*◌, ◌/◌, ◌^◌, ◌≤◌};
ghost use Rattle.std.specs.Float.{binary32};
ghost use Rattle.std.specs.Float.Ieee.{of_bits};
ghost use Rattle.position.specs.Cell.{fraction, whole, cell_in};
ghost use Rattle.position.specs.Spots.{coordinate_on, spot_on, Side, Down};

pub use band::{Band, Bands, bands_of, in_bands};
use band::{band_of, in_band};
use squares::{Cell, Shape};

// Two coordinates kept together: x counts from the west wall, y from the south wall.
#[derive(Clone, Copy)]
pub struct Position {
    pub x: f32,
    pub y: f32,
}

// The cell of a position on the map of a town.
pub fn locate(s: Shape, p: Position) -> Option<Cell>
    ensures { result ≡ spot_on s p }
{
    if !s.allowed() {
        return None;
    }
    let width = s.width();
    let height = s.height();
    let x = cell_of(p.x, width)?;
    let y = cell_of(p.y, height)?;
    Some(Cell { x, y })
}

// The float with these bits. A NaN has no bits of its own: all of their patterns give the one NaN.
pub fn float_of(bits: u32) -> f32
    ensures { result ≡ of_bits binary32 bits }
{
    if 0x7F80_0000 < bits % 0x8000_0000 {
        return 0.0f32 / 0.0f32;
    }
    f32::from_bits(bits)
}

// The cell of any float, on a side of a town: off the map a NaN, what is below 0 and what is past the wall.
pub fn cell_of(x: f32, side: u32) -> Option<u32>
    requires { Side side }
    ensures { result ≡ coordinate_on side x }
{
    if !in_band(band_of(0, side, side), x) {
        return None;
    }
    Some(cell_in(f32::to_bits(x) % 0x8000_0000, side))
}

// The cell of the number with these bits, which is at most 256, its sign bit clear: its floor, and at
// the wall the last one.
fn cell_in(bits: u32, side: u32) -> u32
    requires side { Side side }
    requires bits_bound { bits ≤ 135 * 2 ^ 23 }
    ensures { result ≡ cell_in side bits }
{
    let cell = floor(bits);
    if cell < side {
        return cell;
    }
    side - 1
}

// The greatest whole number not above the value of these bits, which is at most 256: the exponent is
// at most 135. From exponent 127 on, which is 1, the value is digits * 2^(e - 150).
fn floor(bits: u32) -> u32
    requires { bits ≤ 135 * 2 ^ 23 }
    ensures { result ≡ whole bits / 2 ^ 149 }
{
    digits(bits) >> shift_of(bits >> 23)
}

// By how much the 24 digits are shifted down: below 1 all of them are shifted out.
fn shift_of(e: u32) -> u32
    requires { e ≤ 135 }
    ensures { Down e result }
{
    if e < 119 {
        return 31;
    }
    150 - e
}

// The fraction field below its leading 1.
fn digits(bits: u32) -> u32
    ensures { result ≡ 2 ^ 23 + fraction bits }
{
    0x80_0000 + bits % 0x80_0000
}
