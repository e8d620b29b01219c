// The lists of the squares: whether the entries in use are the right ones, and whether each list starts where it should.
// A list goes with a number where what stands behind it is read or written too, as the clause says.
ghost use Rattle.std.specs.Prelude.{◌-◌, ◌≤◌, ◌≡◌, length};
ghost use Rattle.soundness.specs.Tests.{every, rises_at, free_at, starts_above, parts, start_right, entries_right, Fitting};

use crate::zones::Zones;
use order::{ends_below, wide};

// Whether entries rise.
fn rises(entries: &[u32]) -> bool
    ensures { result ≡ every (rises_at entries.now) (length entries.now - 1) }
{
    entries.is_sorted_by(|a, b| a < b)
}

// Whether each entry is the free mark.
fn frees(entries: &[u32]) -> bool
    ensures { result ≡ every (free_at entries.now) (length entries.now) }
{
    entries.iter().all(|entry| *entry == 4294967295)
}

// Whether the first u entries are all the keys in use, in order, and the others are free.
pub fn entries_right(zones: Zones<'_>, entries: &[u32], u: usize) -> bool
    requires { Fitting zones.s zones.zones.now zones.many }
    ensures { result ≡ entries_right zones.entry.s zones.entry.many zones.entry.zones.now entries.now u }
{
    if entries.len() < u {
        return false;
    }
    let used = &entries[..u];
    if !rises(used) {
        return false;
    }
    if !zones.rights(used) {
        return false;
    }
    if u != zones.cut_sizes() {
        return false;
    }
    frees(&entries[u..])
}

// ---- starts

// Whether the entry after the first n is not below a key.
fn starts_above(entries: &[u32], key: usize, n: usize) -> bool
    requires { n ≤ length entries.now }
    ensures { result ≡ starts_above entries.now (length entries.now) key n }
{
    if n == entries.len() {
        return true;
    }
    key <= wide(entries[n])
}

// Whether the first n entries are below a key, and no other.
fn parts(entries: &[u32], key: usize, n: usize) -> bool
    ensures { result ≡ parts entries.now (length entries.now) key n }
{
    if entries.len() < n {
        return false;
    }
    if !ends_below(&entries[..n], key) {
        return false;
    }
    starts_above(entries, key, n)
}

// Whether each place's list starts where it should among the entries in use.
pub fn starts_right(starts: &[u32], used: &[u32]) -> bool
    requires { length starts.now ≤ 87382 }
    ensures { result ≡ every (start_right starts.now used.now (length used.now)) (length starts.now) }
{
    (0..starts.len()).all(|p| parts(used, p * 256, wide(starts[p])))
}
