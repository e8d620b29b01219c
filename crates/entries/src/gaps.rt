// Keys taken out of the entries: each is found by the starts, and what lies between two of them moves down as a range.
// A list goes with a number where what stands behind it is read or written too, as the clause says.
ghost use Rattle.std.specs.Prelude.{◌≡◌, ◌≤◌, length};
ghost use Rattle.entries.specs.Gaps.{SlideRoom, slid, Skips, Finds, Closes};

use crate::entries::FREE;
use order::rank_of;

// Moves the numbers from one place up to an end down by so many places.
pub fn move_down(list: &mut [u32], from: usize, end: usize, by: usize)
    requires { SlideRoom from end by list.old }
    ensures { list.new ≡ slid from end by list.old }
{
    if by == 0 {
        return;
    }
    for i in from..end {
        list[i - by] = list[i];
    }
}

// How many of the entries from `from` on, of so many, lie before the place of a key, by its start.
// Only the starts from n on are trusted: for the others it is 0.
fn skip_to(starts: &[u32], n: usize, from: usize, many: usize, key: u32) -> usize
    ensures { Skips starts.now n from many key result }
{
    let p = (key / 256) as usize;
    if p < n {
        return 0;
    }
    if starts.len() <= p {
        return 0;
    }
    let at = starts[p] as usize;
    if at < from {
        return 0;
    }
    if many < at - from {
        return 0;
    }
    at - from
}

// How many numbers at the front of `rest`, the entries from `from` on, are below a key.
pub fn find_key(starts: &[u32], n: usize, rest: &[u32], from: usize, key: u32) -> usize
    ensures { Finds starts.now n rest.now from key result }
{
    let i = skip_to(starts, n, from, rest.len(), key);
    i + rank_of(&rest[i..], key)
}

// The first n starts are keys among the first u entries: those are taken out, and free marks stand after what is left.
// At a key that is not there it stops.
pub fn close_gaps(starts: &[u32], n: usize, entries: &mut [u32], u: usize)
    requires n_in_bounds { n ≤ length starts.now }
    requires u_in_bounds { u ≤ length entries.old }
    ensures { Closes n u starts.now entries.old entries.new }
{
    let mut from = 0;
    for (gone, key) in starts[..n].iter().enumerate() {
        let at = from + find_key(starts, n, &entries[from..u], from, *key);
        if at == u {
            return;
        }
        move_down(entries, from, at, gone);
        from = at + 1;
    }
    move_down(entries, from, u, n);
    entries[u - n..u].fill(FREE);
}
