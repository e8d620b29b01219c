// The number of a square and the square of a number.
ghost use Rattle.std.specs.Prelude.{◌≡◌, []};
ghost use Rattle.squares.specs.Shape.{shape};
ghost use Rattle.grid.specs.Promises.{makes, number_is, number_gives, square_is, square_gives};

use squares::{Cell, Refusal, Shape, Square};

// The number of the square on a level with southwest corner (x, y).
pub fn number_of_square(k: u32, P: u32, Q: u32, level: u32, x: u32, y: u32) -> Result<u32, Refusal>
    ensures { makes [] (number_is result) ≡ number_gives (shape k P Q) level x y }
{
    let s = Shape::new(k, P, Q)?;
    let corner = Cell { x, y };
    if !s.is_corner(level, corner) {
        return Err(Refusal::Square);
    }
    Ok(s.number(level, corner))
}

// The corner and side of the square on a level with number n.
pub fn square_of_number(k: u32, P: u32, Q: u32, level: u32, n: u32) -> Result<Square, Refusal>
    ensures { makes [] (square_is result) ≡ square_gives (shape k P Q) level n }
{
    let s = Shape::new(k, P, Q)?;
    if s.k < level {
        return Err(Refusal::Square);
    }
    if s.squares_on(level) <= n {
        return Err(Refusal::Square);
    }
    Ok(s.square(level, n))
}
