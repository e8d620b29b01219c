// Whether a coordinate's cell is one of a stretch of cells on a side, told by comparing floats alone: the
// cell is not worked out, and there is no branch.
ghost use Rattle.std.specs.Prelude.{◌≡◌};
ghost use Rattle.squares.specs.Bounds.{Allowed, Fits};
ghost use Rattle.position.specs.Band.{band_of, columns_of, rows_of, in_band, in_bands, Stretch};

use crate::Position;
use squares::{Rect, Shape};

// The floats of a stretch of cells: from `low` on and below `end`, or `wall`.
#[derive(Clone, Copy)]
pub struct Band {
    pub low: f32,
    pub end: f32,
    pub wall: f32,
}

// Those of a rectangle's columns, and of its rows.
#[derive(Clone, Copy)]
pub struct Bands {
    pub columns: Band,
    pub rows: Band,
}

// The w cells from a on, on a side of a town. Where they reach the wall, it is theirs; else `wall` is
// `low` again.
pub fn band_of(a: u32, w: u32, side: u32) -> Band
    requires { Stretch a w side }
    ensures { result ≡ band_of a w side }
{
    let low = a as f32;
    let end = (a + w) as f32;
    if a + w == side {
        return Band {
            low,
            end,
            wall: end,
        };
    }
    Band {
        low,
        end,
        wall: low,
    }
}

// The columns and the rows of a rectangle in a town.
pub fn bands_of(s: Shape, r: Rect) -> Bands
    requires allowed { Allowed s }
    requires fits { Fits s r }
    ensures columns { result.columns ≡ columns_of s r }
    ensures rows { result.rows ≡ rows_of s r }
{
    Bands {
        columns: band_of(r.a, r.w, s.width()),
        rows: band_of(r.b, r.h, s.height()),
    }
}

// Whether a float is one of a band.
pub fn in_band(b: Band, x: f32) -> bool
    ensures { result ≡ in_band b x }
{
    (b.low <= x) & ((x < b.end) | (x == b.wall))
}

// Whether a position's floats are of both.
pub fn in_bands(bands: Bands, p: Position) -> bool
    ensures { result ≡ in_bands bands.columns bands.rows p }
{
    in_band(bands.columns, p.x) & in_band(bands.rows, p.y)
}
