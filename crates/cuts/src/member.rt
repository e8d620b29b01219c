// Whether a square is in a cut.
ghost use Rattle.std.specs.Prelude.{◌≡◌};
ghost use Rattle.cuts.specs.Cut.{in_cut};
ghost use Rattle.cuts.specs.Leaves.{Both};

use squares::{Rect, Shape, Square};

// Whether a square is in the cut of a rectangle. The parent begins where the square does, or a side before
// it: west of its eastern two squares, south of its northern two.
pub fn in_cut(s: Shape, r: Rect, level: u32, n: u32) -> bool
    requires { Both s r level n }
    ensures { result ≡ in_cut s r level n }
{
    let q = s.square(level, n);
    if !r.within(q) {
        return false;
    }
    if level == 0 {
        return true;
    }
    let parent = Square {
        x: q.x - n % 2 * q.side,
        y: q.y - n / 2 % 2 * q.side,
        side: 2 * q.side,
    };
    !r.within(parent)
}
