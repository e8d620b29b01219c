// A car's record and its position, written.
// They stand flat in a table, as C lends them, so they are written number by number, as `with_spot` does.
ghost use Rattle.std.specs.Prelude.{◌+◌, ◌*◌, ◌<◌, ◌≤◌, ◌≡◌, length, set};
ghost use Rattle.tables.specs.Steps.{with_spot};

use position::Position;

// Car c's record: 0 off the map, else its team plus 1.
pub fn write_car(cars: &mut [u32], c: usize, v: u32)
    requires { c < length cars.old }
    ensures { cars.new ≡ set cars.old c v }
{
    cars[c] = v;
}

// Car c's position, its bits unchanged.
pub fn write_spot(spots: &mut [f32], c: usize, p: Position)
    requires { 2 * c + 2 ≤ length spots.old }
    ensures { spots.new ≡ with_spot spots.old c p }
{
    let at = 2 * c;
    let x = p.x;
    let y = p.y;
    spots[at] = x;
    spots[at + 1] = y;
}
