// A zone's keys: made of the squares of its cut, and put into the entries.
ghost use Rattle.std.specs.Prelude.{◌≡◌, ℕ, ◌<◌, map, length, slice_index};
ghost use Rattle.entries.specs.Keys.{code_key, Coded, KeyRoom, KeySpace, Keyed, AddRoom, KeysAdded};

use crate::merge::merge_keys;
use cuts::cut_levels;
use squares::{Rect, Shape};
use starts::{raise_starts, set_starts};
use tables::place_of;

// The key of zone z on the list of a square that is written as one number.
fn code_key(s: Shape, z: u32, code: u32) -> u32
    requires { Coded s z code }
    ensures { result ≡ code_key s z code }
{
    let place = place_of(s, code / 1048576, code % 1048576);
    place as u32 * 256 + z
}

// Turns squares into the keys of zone z on their lists.
pub fn key_codes(s: Shape, z: u32, codes: &mut [u32])
    requires { (i : ℕ) → i < length codes.old → Coded s z (slice_index codes.old i) }
    ensures { codes.new ≡ map (code_key s z) codes.old }
{
    for code in codes.iter_mut() {
        *code = code_key(s, z, *code);
    }
}

// Writes the keys of zone z with rectangle r to the front of a buffer that has room for them. Answers how many they are.
pub fn write_keys_into(s: Shape, r: Rect, z: u32, keys: &mut [u32]) -> usize
    requires { KeySpace s r z keys.old }
    ensures { Keyed s r z keys.old keys.new result }
{
    let n = cut_levels(s, r, keys);
    key_codes(s, z, &mut keys[..n]);
    n
}

// The same in a buffer that has room for a town's squares. It stands beside the other for what it promised (DECISIONS 93).
pub fn write_keys(s: Shape, r: Rect, z: u32, keys: &mut [u32]) -> usize
    requires { KeyRoom s r z keys.old }
    ensures { Keyed s r z keys.old keys.new result }
{
    write_keys_into(s, r, z, keys)
}

// Adds the keys of zone z with rectangle r to the first u entries, and moves the starts.
// Until then the front of the starts holds the new keys: those starts are counted anew.
pub fn add_keys(s: Shape, r: Rect, z: u32, u: usize, starts: &mut [u32], entries: &mut [u32])
    requires { AddRoom s r z u starts.old entries.old }
    ensures { KeysAdded s r z u starts.old starts.new entries.old entries.new }
{
    let n = write_keys(s, r, z, starts);
    merge_keys(starts, n, entries, u);
    raise_starts(starts, n);
    set_starts(&mut starts[..n], entries);
}
