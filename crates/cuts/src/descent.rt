// The squares of a cut, stored level after level as far as a lent buffer goes, by one descent from each block.
ghost use Rattle.cuts.specs.Leaves.{Room, Takes, Crossed, RowRoom, RowsRoom, AllRoom, AllStores};
ghost use Rattle.cuts.specs.Cut.{cut_on};
ghost use Rattle.cuts.specs.Descent.{found_on, codes_in_row};
ghost use Rattle.cuts.specs.Lay.{Lays};

use crate::count::set_places;
use squares::{Rect, Shape, Square};

// Stores the square with number n on a level at its level's next place if it lies inside. Answers
// whether its children are to be looked at.
fn take_square(
    r: Rect,
    level: usize,
    q: Square,
    n: u32,
    out: &mut [u32],
    next: &mut [usize],
) -> bool
    requires { Room r level q.x q.y q.side n next.old }
    ensures { Takes r level q.x q.y q.side n out.old out.new next.old next.new result }
{
    if r.within(q) {
        let at = next[level];
        order::store(out, at, level as u32 * 1048576 + n);
        next[level] = at + 1;
        return false;
    }
    if level + 1 < next.len() {
        return r.meets(q);
    }
    false
}

// Stores the squares of the cut in a square that is partly inside, child by child in the order of
// their numbers.
fn descend(r: Rect, level: usize, q: Square, n: u32, out: &mut [u32], next: &mut [usize])
    requires { Crossed r level q.x q.y q.side n next.old }
    ensures { Lays (found_on r level q.x q.y q.side n) out.old out.new next.old next.new }
{
    let below = level + 1;
    let side = q.side / 2;
    for c in 0..4 {
        let child = Square {
            x: q.x + c % 2 * side,
            y: q.y + c / 2 * side,
            side,
        };
        let number = 4 * n + c;
        if take_square(r, below, child, number, out, next) {
            descend(r, below, child, number, out, next);
        }
    }
}

// Stores the squares of the cut in the block with number n.
fn cut_block(r: Rect, q: Square, n: u32, out: &mut [u32], next: &mut [usize])
    requires { Room r 0 q.x q.y q.side n next.old }
    ensures { Lays (found_on r 0 q.x q.y q.side n) out.old out.new next.old next.new }
{
    if take_square(r, 0, q, n, out, next) {
        descend(r, 0, q, n, out, next);
    }
}

// Stores the squares of the cut in one row of blocks.
fn cut_row(s: Shape, r: Rect, row: u32, out: &mut [u32], next: &mut [usize])
    requires { RowRoom s r row next.old }
    ensures { Lays (codes_in_row s r row s.P) out.old out.new next.old next.new }
{
    let side = s.side();
    let end = (r.a + r.w - 1) / side + 1;
    for column in r.a / side..end {
        let q = Square {
            x: column * side,
            y: row * side,
            side,
        };
        cut_block(r, q, row * s.P + column, out, next);
    }
}

// Stores the squares of the cut in all rows of blocks.
fn cut_rows(s: Shape, r: Rect, out: &mut [u32], next: &mut [usize])
    requires { RowsRoom s r next.old }
    ensures { Lays (cut_on s r) out.old out.new next.old next.new }
{
    let side = s.side();
    let end = (r.b + r.h - 1) / side + 1;
    for row in r.b / side..end {
        cut_row(s, r, row, out, next);
    }
}

// Stores the squares of the cut, and answers how many they are.
pub fn cut_levels(s: Shape, r: Rect, out: &mut [u32]) -> usize
    requires { AllRoom s r }
    ensures { AllStores s r out.old out.new result }
{
    let mut places = [0usize; 6];
    let levels = s.k as usize + 1;
    let count = set_places(s, r, &mut places[..levels]);
    cut_rows(s, r, out, &mut places[..levels]);
    count
}
