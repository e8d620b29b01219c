// A square's run of entries: the zones on its list.
ghost use Rattle.std.specs.Prelude.{◌≡◌, ℕ, ◌+◌, ◌<◌, ◌≤◌, Bool, length};
ghost use Rattle.tables.specs.Runs.{listed_at, any, outside, Gathers};

use crate::records::rect_in;
use squares::Cell;

// Whether the list of the square at place p has a zone.
pub fn listed(starts: &[u32], p: usize) -> bool
    requires { p + 1 < length starts.now }
    ensures { result ≡ listed_at starts.now p }
{
    starts[p] < starts[p + 1]
}

// The zones on the list of the square at place p for which `keeps` answers true are put into the rising front of `out`,
// its first n numbers. Answers how many there are now. A run that passes the end of the entries adds nothing.
fn gather_kept<F: Fn(u32) -> bool>(
    keeps: F,
    starts: &[u32],
    entries: &[u32],
    p: usize,
    out: &mut [u32],
    n: usize,
) -> usize
    ghost has: { ℕ → Bool }
    requires callable { (z : ℕ) → z < 256 → F.pre keeps z }
    requires tells { (z : ℕ) (b : Bool) → z < 256 → F.post keeps z b → b ≡ has z }
    requires p_in_bounds { p + 1 < length starts.now }
    requires n_in_bounds { n ≤ length out.old }
    ensures { Gathers has starts.now entries.now p out.old out.new n result }
{
    let Some(run) = entries.get(starts[p] as usize..starts[p + 1] as usize) else {
        return n;
    };
    let mut count = n;
    for key in run {
        let z = *key % 256;
        if keeps(z) {
            count = order::put(out, count, z);
        }
    }
    count
}

// The same with all zones on the list of the square at place p.
pub fn gather(starts: &[u32], entries: &[u32], p: usize, out: &mut [u32], n: usize) -> usize
    requires p_in_bounds { p + 1 < length starts.now }
    requires n_in_bounds { n ≤ length out.old }
    ensures { Gathers any starts.now entries.now p out.old out.new n result }
{
    gather_kept(|_z| true, starts, entries, p, out, n)
}

// Whether zone z, below 256, does not hold the cell.
fn is_outside(zones: &[u32], cell: Cell, z: u32) -> bool
    requires { z < 256 }
    ensures { result ≡ outside zones.now cell.x cell.y z }
{
    let at = z as usize;
    if zones.len() <= 4 * at + 3 {
        return true;
    }
    !rect_in(zones, at).holds(cell)
}

// The same without the zones that hold the cell.
pub fn gather_outside(
    zones: &[u32],
    cell: Cell,
    starts: &[u32],
    entries: &[u32],
    p: usize,
    out: &mut [u32],
    n: usize,
) -> usize
    requires p_in_bounds { p + 1 < length starts.now }
    requires n_in_bounds { n ≤ length out.old }
    ensures { Gathers (outside zones.now cell.x cell.y) starts.now entries.now p out.old out.new n result }
{
    gather_kept(
        move |z| is_outside(zones, cell, z),
        starts,
        entries,
        p,
        out,
        n,
    )
}
