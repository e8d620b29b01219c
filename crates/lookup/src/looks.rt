// The squares of a cell, and those of two cells where they differ, looked into.
ghost use Rattle.std.specs.Prelude.{◌+◌, ◌≡◌, length};
ghost use Rattle.squares.specs.Squares.{squares};
ghost use Rattle.squares.specs.Leaves.{OnMap};
ghost use Rattle.lookup.specs.Looks.{Looks, Crosses};

use model::{Crossed, Looked};
use squares::{Cell, Shape};

// Gathers the zones on the lists of the k + 1 squares of a cell, from the unit cell up.
pub fn look_up(s: Shape, cell: Cell, starts: &[u32], entries: &[u32], out: &mut [u32]) -> Looked
    requires on_map { OnMap s cell.x cell.y }
    requires starts_len { length starts.now ≡ squares s + 1 }
    ensures { Looks s cell.x cell.y starts.now entries.now out.old out.new result }
{
    let mut place = tables::place_of(s, s.k, s.number(s.k, cell));
    let mut found = 0;
    let levels = s.k + 1;
    for _ in 0..levels {
        found = tables::gather(starts, entries, place, out, found);
        place = tables::parent_of(s, place);
    }
    Looked {
        squares: levels,
        zones: found,
    }
}

// Two buffers, and no struct of both: C lends each by itself, and the laws of the two are apart.
// From the unit cells up, as long as the two cells lie in different squares: gathers the zones of the
// new square that do not hold the old cell, and those of the old square that do not hold the new one.
pub fn cross(
    s: Shape,
    zones: &[u32],
    starts: &[u32],
    entries: &[u32],
    from: Cell,
    to: Cell,
    entered: &mut [u32],
    left: &mut [u32],
) -> Crossed
    requires on_map { OnMap s from.x from.y }
    requires on_map_2 { OnMap s to.x to.y }
    requires starts_len { length starts.now ≡ squares s + 1 }
    ensures { Crosses s zones.now starts.now entries.now from.x from.y to.x to.y entered.old entered.new left.old left.new result }
{
    let k = s.k;
    let differing = squares::steps_apart(k, from, to);
    let mut old = tables::place_of(s, k, s.number(k, from));
    let mut new = tables::place_of(s, k, s.number(k, to));
    let mut came = 0;
    let mut gone = 0;
    for _ in 0..differing {
        came = tables::gather_outside(zones, from, starts, entries, new, entered, came);
        gone = tables::gather_outside(zones, to, starts, entries, old, left, gone);
        old = tables::parent_of(s, old);
        new = tables::parent_of(s, new);
    }
    Crossed {
        squares: 2 * differing,
        entered: came,
        left: gone,
    }
}
