// A block of the entries in which keys are dropped before others are taken up: it moves down, the first range first.
ghost use Rattle.std.specs.Prelude.{◌≤◌, length};
ghost use Rattle.entries.specs.Gaps.{SlideRoom};
ghost use Rattle.rides.specs.Blocks.{SinkRoom, Sinks};
ghost use Rattle.rides.specs.Steps.{Next, FoundIn, Drawn};

use crate::keys::Keys;
use entries::{FREE, find_key, move_down};

// Whether the next number that is dropped, the one at a, comes before the next that is taken up, the one at b.
fn drops_next(gone: &[u32], come: &[u32], a: usize, i: usize, b: usize, j: usize) -> bool
    requires i_in_bounds { i ≤ length gone.now }
    requires j_in_bounds { j ≤ length come.now }
    ensures { Next gone.now come.now a i b j result }
{
    a < i && (j <= b || gone[a] < come[b])
}

// The place of a key among the entries from one place up to an end.
fn place_in(starts: &[u32], n: usize, entries: &[u32], from: usize, end: usize, key: u32) -> usize
    requires from_le_end { from ≤ end }
    requires end_in_bounds { end ≤ length entries.now }
    ensures { FoundIn starts.now n entries.now from end key result }
{
    from + find_key(starts, n, &entries[from..end], from, key)
}

// Moves what is left of a block down by so many places, and writes free marks after it.
fn draw_in(entries: &mut [u32], from: usize, end: usize, by: usize)
    requires { SlideRoom from end by entries.old }
    ensures { Drawn entries.old entries.new from end by }
{
    move_down(entries, from, end, by);
    let left = end - by;
    entries[left..end].fill(FREE);
}

// A block's bounds one by one, as in `lift`: no plainer as a struct, since each clause and call would name every field.
// Exchanges the keys of a block: from m up to i those dropped, up to j those taken up, which are as many or fewer.
// At a key that is not there it stops.
pub fn sink(keys: Keys, entries: &mut [u32], from: usize, end: usize, m: usize, i: usize, j: usize)
    requires { SinkRoom keys.gone.now keys.come.now entries.old from end m i j }
    ensures { let k = keys.entry in Sinks k.starts.now k.n k.gone.now k.come.now entries.old entries.new from end m i j }
{
    let mut at = from;
    let mut a = m;
    let mut b = m;
    // A `while`: two lists are merged, each by an index of its own, and a `for` would still count both by hand.
    while a < i || b < j {
        if drops_next(keys.gone, keys.come, a, i, b, j) {
            let place = place_in(keys.starts, keys.n, entries, at, end, keys.gone[a]);
            if place == end {
                return;
            }
            move_down(entries, at, place, a - b);
            at = place + 1;
            a += 1;
            continue;
        }
        if a == b {
            return;
        }
        let by = a - b;
        let key = keys.come[b];
        let place = place_in(keys.starts, keys.n, entries, at, end, key);
        move_down(entries, at, place, by);
        entries[place - by] = key;
        at = place;
        b += 1;
    }
    draw_in(entries, at, end, a - b);
}
