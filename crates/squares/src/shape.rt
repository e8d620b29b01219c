// The town's shape, a cell, a rectangle, a square, and what comes from the shape.
ghost use Rattle.std.specs.Prelude.{◌≡◌, ◌*◌, ◌<◌};
ghost use Rattle.squares.specs.Shape.{largest_side, allowed, side, width, height, fits, holds};
ghost use Rattle.squares.specs.Made.{shaped};
ghost use Rattle.squares.specs.Bounds.{Allowed};
ghost use Rattle.squares.specs.Squares.{side_on, squares_on, squares, block, number, is_corner};
ghost use Rattle.squares.specs.Made.{square_of};
ghost use Rattle.squares.specs.Leaves.{Positive, Below, OnMap, OnLevel};

use crate::powers::{evens_of, four_to, interleaved, two_to};
use crate::refusal::Refusal;

// k, P and Q of a town: blocks of side 2^k, P of them west to east and Q south to north.
#[derive(Clone, Copy)]
pub struct Shape {
    pub k: u32,
    pub P: u32,
    pub Q: u32,
}

// A cell of a town, by its column and its row.
#[derive(Clone, Copy, Debug, PartialEq, Eq)]
pub struct Cell {
    pub x: u32,
    pub y: u32,
}

// The cells from column a and row b on, w columns and h rows of them.
#[derive(Clone, Copy)]
pub struct Rect {
    pub a: u32,
    pub b: u32,
    pub w: u32,
    pub h: u32,
}

// A square by its southwest corner and its side.
#[derive(Clone, Copy)]
pub struct Square {
    pub x: u32,
    pub y: u32,
    pub side: u32,
}

// The bounds are asked of callers (`Allowed`), and are no invariant of the type: `locate` answers for a shape beyond them too, and
// `cases` gives it one.
impl Shape {
    // The limits.
    pub const LARGEST_K: u32 = 5;

    pub const LARGEST_SIDE: u32 = 256;

    pub const MOST_ZONES: u32 = 256;

    pub const MOST_CARS: u32 = 1024;

    pub const MOST_ENTRIES: u32 = 16384;

    // The shape, where it is within the bounds.
    pub fn new(k: u32, P: u32, Q: u32) -> Result<Shape, Refusal>
        ensures { result ≡ shaped k P Q }
    {
        let s = Shape { k, P, Q };
        if s.allowed() {
            Ok(s)
        } else {
            Err(Refusal::Shape)
        }
    }

    // Whether the shape is within the bounds.
    pub fn allowed(self) -> bool
        ensures { result ≡ allowed self }
    {
        if Shape::LARGEST_K < self.k || self.P == 0 || self.Q == 0 {
            return false;
        }
        let most = Shape::LARGEST_SIDE / two_to(self.k);
        self.P <= most && self.Q <= most
    }

    // The side of a block.
    pub fn side(self) -> u32
        requires { Allowed self }
        ensures { Positive (side self) 32 result }
    {
        two_to(self.k)
    }

    // The side of a square on a level.
    pub fn side_on(self, level: u32) -> u32
        requires { OnLevel self level }
        ensures { Positive (side_on self level) 32 result }
    {
        two_to(self.k - level)
    }

    // The columns of the town.
    pub fn width(self) -> u32
        requires { Allowed self }
        ensures { Positive (width self) largest_side result }
    {
        self.P * self.side()
    }

    // The rows of the town.
    pub fn height(self) -> u32
        requires { Allowed self }
        ensures { Positive (height self) largest_side result }
    {
        self.Q * self.side()
    }

    // How many squares a level has.
    pub fn squares_on(self, level: u32) -> u32
        requires { OnLevel self level }
        ensures { Positive (squares_on self level) 65536 result }
    {
        self.P * self.Q * four_to(level)
    }

    // How many squares the town has.
    pub fn squares(self) -> u32
        requires { Allowed self }
        ensures { Positive (squares self) 87381 result }
    {
        self.P * self.Q * (four_to(self.k + 1) - 1) / 3
    }

    // The block of a cell.
    pub fn block(self, cell: Cell) -> u32
        requires { OnMap self cell.x cell.y }
        ensures { Below (block self cell.x cell.y) (self.P * self.Q) result }
    {
        let side = self.side();
        cell.x / side + cell.y / side * self.P
    }

    // Whether a cell is the southwest corner of a square on a level.
    pub fn is_corner(self, level: u32, cell: Cell) -> bool
        requires { Allowed self }
        ensures { result ≡ is_corner self level cell.x cell.y }
    {
        if self.k < level {
            return false;
        }
        let side = self.side_on(level);
        cell.x < self.width() && cell.y < self.height() && cell.x % side == 0 && cell.y % side == 0
    }

    // Whether a rectangle has cells and lies in the town.
    pub fn fits(self, r: Rect) -> bool
        requires { Allowed self }
        ensures { result ≡ fits self r }
    {
        let W = self.width();
        let H = self.height();
        0 < r.w && 0 < r.h && r.w <= W && r.a <= W - r.w && r.h <= H && r.b <= H - r.h
    }

    // The number of the square on a level in which a cell lies; on level 0 that of its block.
    pub fn number(self, level: u32, cell: Cell) -> u32
        requires on_map { OnMap self cell.x cell.y }
        requires on_level { OnLevel self level }
        ensures { Below (number self level cell.x cell.y) (squares_on self level) result }
    {
        if level == 0 {
            return self.block(cell);
        }
        let side = self.side();
        let part = self.side_on(level);
        let local = interleaved(cell.x % side / part, cell.y % side / part);
        four_to(level) * self.block(cell) + local
    }

    // The square with a number.
    pub fn square(self, level: u32, n: u32) -> Square
        requires on_level { OnLevel self level }
        requires n_bound { n < squares_on self level }
        ensures { result ≡ square_of self level n }
    {
        let side = self.side_on(level);
        let across = two_to(level);
        let block = n / four_to(level);
        let column = block % self.P * across + evens_of(level, n);
        let row = block / self.P * across + evens_of(level, n / 2);
        Square {
            x: column * side,
            y: row * side,
            side,
        }
    }
}

impl Rect {
    // Whether a cell lies in the rectangle, of any numbers: around 2^64 a difference below 0 is past every u32.
    pub fn holds(self, cell: Cell) -> bool
        ensures { result ≡ holds self cell.x cell.y }
    {
        let across = std::num::wrapping_sub_u64(cell.x as u64, self.a as u64);
        let up = std::num::wrapping_sub_u64(cell.y as u64, self.b as u64);
        let column = across < self.w as u64;
        let row = up < self.h as u64;
        column & row
    }
}
