// Keys merged into the entries.
// A list goes with a number where what stands behind it is read or written too, as the clause says.
ghost use Rattle.std.specs.Prelude.{◌≡◌, ℕ, ◌+◌, ◌-◌, ◌≤◌, List, length, take};
ghost use Rattle.entries.specs.Merge.{moved_up, Limit, Seat, Merged};

use order::wide;
use starts::place_after;

// Moves the entries from one place up to another so many places up, the last one first.
pub fn move_up(entries: &mut [u32], from: usize, end: usize, by: usize)
    requires { end + by ≤ length entries.old }
    ensures { entries.new ≡ moved_up from by (end - from) entries.old }
{
    for i in (from..end).rev() {
        entries[i + by] = entries[i];
    }
}

// How many of the first entries, up to an end, can be below a key: a later place's start tells it.
// The first n starts are not read: keys lie there.
pub fn limit_of(starts: &[u32], n: usize, end: usize, key: u32) -> usize
    ensures { (e : List ℕ) → Limit starts.now n e end key result }
{
    let next = place_after(key, starts.len()).max(n);
    match starts.get(next) {
        Some(start) => wide(*start).min(end),
        None => end,
    }
}

// How many of the entries are below a key: counted down from how many can be.
fn seat_of(starts: &[u32], n: usize, entries: &[u32], key: u32) -> usize
    ensures { Seat starts.now n entries.now (length entries.now) key result }
{
    for i in (0..limit_of(starts, n, entries.len(), key)).rev() {
        if entries[i] < key {
            return i + 1;
        }
    }
    0
}

// Merges the first n numbers of the starts, which are keys, into the first u entries, in place.
// The highest key goes first: the entries between it and the key after it move up as a range.
pub fn merge_keys(starts: &[u32], n: usize, entries: &mut [u32], u: usize)
    requires n_in_bounds { n ≤ length starts.now }
    requires n_in_bounds_2 { u + n ≤ length entries.old }
    ensures { Merged starts.now entries.old entries.new u (take n starts.now) }
{
    let mut end = u;
    for j in (0..n).rev() {
        let key = starts[j];
        let at = seat_of(starts, n, &entries[..end], key);
        move_up(entries, at, end, j + 1);
        entries[at + j] = key;
        end = at;
    }
}
