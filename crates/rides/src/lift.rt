// A block of the entries in which keys are taken up before others are dropped: it moves up, the last range first.
// A list goes with a number where what stands behind it is read or written too, as the clause says.
ghost use Rattle.std.specs.Prelude.{◌<◌, ◌≤◌, length};
ghost use Rattle.rides.specs.Blocks.{SeatIn, LastDrop, LiftRoom, Lifts};

use crate::keys::Keys;
use entries::{limit_of, move_up};

// How many entries lie before a key, of those from one place up to an end: counted down from how many can.
fn seat_in(starts: &[u32], n: usize, entries: &[u32], from: usize, end: usize, key: u32) -> usize
    requires { end ≤ length entries.now }
    ensures { SeatIn starts.now n entries.now from end key result }
{
    let limit = limit_of(starts, n, end, key);
    for i in (from..limit).rev() {
        if entries[i] < key {
            return i + 1;
        }
    }
    from.min(limit)
}

// Whether the last number that is dropped, of the first i from m on, comes after the last that is taken up, of the first j.
fn drops_last(gone: &[u32], come: &[u32], m: usize, i: usize, j: usize) -> bool
    requires i_in_bounds { i ≤ length gone.now }
    requires j_nonzero { 0 < j }
    requires j_in_bounds { j ≤ length come.now }
    ensures { LastDrop gone.now come.now m i j result }
{
    m < i && come[j - 1] < gone[i - 1]
}

// Exchanges the keys of a block: from m up to i those dropped, up to j those taken up, which are as many or more.
// At a key that is not there it stops. A block's five bounds are no struct: each clause and each call would name every field.
pub fn lift(
    keys: Keys,
    entries: &mut [u32],
    from: usize,
    mut end: usize,
    m: usize,
    mut i: usize,
    mut j: usize,
)
    requires { LiftRoom keys.gone.now keys.come.now entries.old from end m i j }
    ensures { let k = keys.entry in Lifts k.starts.now k.n k.gone.now k.come.now entries.old entries.new from end m i j }
{
    // A `while`: two lists are merged from their ends, each by an index of its own, and a `for` would still count both by hand.
    while m < j {
        let by = j - i;
        if drops_last(keys.gone, keys.come, m, i, j) {
            let at = seat_in(keys.starts, keys.n, entries, from, end, keys.gone[i - 1]);
            if at == end {
                return;
            }
            move_up(entries, at, end, by);
            end = at;
            i -= 1;
        } else {
            if by == 0 {
                return;
            }
            let key = keys.come[j - 1];
            let at = seat_in(keys.starts, keys.n, entries, from, end, key);
            move_up(entries, at, end, by);
            entries[at + by - 1] = key;
            end = at;
            j -= 1;
        }
    }
}
