// The calls without tables.
ghost use Rattle.std.specs.Prelude.{[], ◌∷◌};
ghost use Rattle.squares.specs.Shape.{shape};
ghost use Rattle.grid.specs.Promises.{number_gives, square_gives, cut_gives};
ghost use Rattle.boundary.specs.Promises.{rect, Gives, lengths_gives};

use model::Opening;
use squares::{Rect, Refusal, Shape};
use tables::TALLY;
use values::{tell_number, tell_refusal, tell_square, tell_values, tell_written};

// Eight values: the lengths of the tables.
#[unsafe(no_mangle)]
pub extern "C" fn unwadegiro_lengths(
    k: u32,
    P: u32,
    Q: u32,
    zones: u32,
    cars: u32,
    entries: u32,
    values: &mut [u32],
) -> u32
    ensures { Gives 8 (lengths_gives (shape k P Q) zones cars entries) [] values.old values.new result }
{
    let Ok(shape) = Shape::new(k, P, Q) else {
        return tell_refusal::<8>(Refusal::Shape, values);
    };
    let o = Opening {
        shape,
        zones,
        cars,
        entries,
    };
    if !tables::roomy(o) {
        return tell_refusal::<8>(Refusal::Capacity, values);
    }
    let Z = zones as usize;
    let C = cars as usize;
    let starts = shape.squares() as usize + 1;
    tell_values(
        [
            6,
            4 * Z,
            C,
            2 * C,
            starts,
            entries as usize,
            Z * C,
            Z * TALLY,
        ],
        values,
    )
}

// One value: the number.
#[unsafe(no_mangle)]
pub extern "C" fn unwadegiro_number(
    k: u32,
    P: u32,
    Q: u32,
    level: u32,
    x: u32,
    y: u32,
    values: &mut [u32],
) -> u32
    ensures { Gives 1 (number_gives (shape k P Q) level x y) [] values.old values.new result }
{
    tell_number(grid::number_of_square(k, P, Q, level, x, y), values)
}

// Three values: the corner's column and row, the side.
#[unsafe(no_mangle)]
pub extern "C" fn unwadegiro_square(
    k: u32,
    P: u32,
    Q: u32,
    level: u32,
    number: u32,
    values: &mut [u32],
) -> u32
    ensures { Gives 3 (square_gives (shape k P Q) level number) [] values.old values.new result }
{
    tell_square(grid::square_of_number(k, P, Q, level, number), values)
}

// One value: the squares written.
#[unsafe(no_mangle)]
pub extern "C" fn unwadegiro_cut(
    k: u32,
    P: u32,
    Q: u32,
    a: u32,
    b: u32,
    w: u32,
    h: u32,
    squares: &mut [u32],
    values: &mut [u32],
) -> u32
    ensures { Gives 1 (cut_gives (shape k P Q) (rect a b w h) squares.old) (squares.new ∷ []) values.old values.new result }
{
    let r = Rect { a, b, w, h };
    tell_written(grid::cut_of_rectangle(k, P, Q, r, squares), values)
}
