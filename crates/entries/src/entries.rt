// The keys of one zone taken out of the entries in one pass, the starts with them.
// A list goes with a number where what stands behind it is read or written too, as the clause says.
ghost use Rattle.std.specs.Prelude.{◌≤◌, length};
ghost use Rattle.entries.specs.Drops.{Packed, Passed};

use starts::{place_after, shift_to};

// The free mark.
pub const FREE: u32 = 4294967295;

// Moves the keys that are not of zone z to the front, in order, and the starts after each key of zone z down by one more.
// Answers how many keys are left.
fn pack_keys(starts: &mut [u32], entries: &mut [u32], z: u32) -> usize
    ensures { Packed z starts.old starts.new entries.old entries.new result }
{
    let many = starts.len();
    let mut p = 0;
    let mut by = 0u32;
    let mut kept = 0;
    for i in 0..entries.len() {
        let key = entries[i];
        entries[kept] = key;
        if key % 256 != z {
            kept += 1;
            continue;
        }
        p = shift_to(starts, p, place_after(key, many), by);
        by = by.wrapping_sub(1);
    }
    shift_to(starts, p, many, by);
    kept
}

// Takes the keys of zone z out of the first u entries: the others keep their order, and free marks stand after them.
// Each start goes down, around 2^32, by how many of the keys before its place are gone.
pub fn pass_keys(starts: &mut [u32], entries: &mut [u32], z: u32, u: usize)
    requires { u ≤ length entries.old }
    ensures { Passed z u starts.old starts.new entries.old entries.new }
{
    let kept = pack_keys(starts, &mut entries[..u], z);
    entries[kept..u].fill(FREE);
}
