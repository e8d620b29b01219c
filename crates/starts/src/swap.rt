// The starts moved by keys that are dropped and others that are taken up, in one pass.
// A list goes with a number where what stands behind it is read or written too, as the clause says.
ghost use Rattle.std.specs.Prelude.{take, drop};
ghost use Rattle.starts.specs.SwapStarts.{SwapKeys, Swapped};

use crate::shift::shift_to;
use crate::starts::place_after;
use order::is_lower;

// The first `gone` numbers are keys that are dropped, and the `come` numbers from `at` on keys that are taken up, both among
// the first n. Each start from place n on moves, around 2^32, up by the keys taken up before its place and down by those dropped.
// One pass: starts between which as many were dropped as taken up are not written.
pub fn swap_starts(starts: &mut [u32], n: usize, gone: usize, at: usize, come: usize)
    requires { SwapKeys gone at come n starts.old }
    ensures { Swapped (take gone starts.old) (take come (drop at starts.old)) n starts.old starts.new }
{
    let many = starts.len();
    let end = at + come;
    let all = gone + end;
    let mut p = n;
    let mut by = 0u32;
    let mut i = 0;
    let mut j = at;
    // Two lists merged by two indices: no `for` goes over both.
    while i + j < all {
        if is_lower(starts, i, gone, j, end) {
            let next = place_after(starts[i], many);
            p = shift_to(starts, p, next, by);
            by = by.wrapping_sub(1);
            i += 1;
            continue;
        }
        let next = place_after(starts[j], many);
        p = shift_to(starts, p, next, by);
        by = by.wrapping_add(1);
        j += 1;
    }
    shift_to(starts, p, many, by);
}
