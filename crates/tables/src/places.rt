// A square's place: its rank when all squares are listed by level and then by number.
ghost use Rattle.std.specs.Prelude.{◌≡◌, ◌<◌};
ghost use Rattle.squares.specs.Bounds.{Allowed};
ghost use Rattle.squares.specs.Squares.{squares_on, squares};
ghost use Rattle.squares.specs.Leaves.{OnLevel, Below};
ghost use Rattle.tables.specs.Derived.{place};
ghost use Rattle.tables.specs.Runs.{parent_of};

use squares::Shape;

// P·Q·(4^level − 1) / 3 squares lie on the levels above.
pub fn place_of(s: Shape, level: u32, n: u32) -> usize
    requires on_level { OnLevel s level }
    requires n_bound { n < squares_on s level }
    ensures { Below (place s level n) (squares s) result }
{
    let above = (s.squares_on(level) - s.P * s.Q) / 3;
    (above + n) as usize
}

// The place of the parent of the square at a place; of a block, which has none, 0, as `parent_of` of the specs says.
pub fn parent_of(s: Shape, place: usize) -> usize
    requires { Allowed s }
    ensures { result ≡ parent_of s place }
{
    let blocks = (s.P * s.Q) as usize;
    if place < blocks {
        return 0;
    }
    (place - blocks) / 4
}
