// A zone's keys exchanged for those of its new place.
// A list goes with a number where what stands behind it is read or written too, as the clause says.
ghost use Rattle.std.specs.Prelude.{take, drop};
ghost use Rattle.starts.specs.SwapStarts.{SwapKeys};
ghost use Rattle.rides.specs.Blocks.{SwapRoom, Swaps};
ghost use Rattle.rides.specs.Changes.{RideRoom, KeysRidden};

use crate::changes::{Changes, find_changes};
use crate::keys::Keys;
use crate::part::Parts;
use crate::pass::swap_keys;
use squares::{Rect, Shape};
use starts::{set_starts, swap_starts};

// Exchanges the keys that stand among the first starts.
fn swap_changes(starts: &[u32], c: Changes, entries: &mut [u32], u: usize)
    requires swap_keys { SwapKeys c.gone c.at c.come c.n starts.now }
    requires swap_room { SwapRoom (take c.gone starts.now) (take c.come (drop c.at starts.now)) entries.old u }
    ensures { Swaps starts.now c.n (take c.gone starts.now) (take c.come (drop c.at starts.now)) u entries.old entries.new }
{
    let end = c.at + c.come;
    let keys = Keys {
        starts,
        n: c.n,
        gone: &starts[..c.gone],
        come: &starts[c.at..end],
    };
    swap_keys(keys, entries, u);
}

// Takes the keys of zone z with rectangle `old` out of the first u entries and puts those with rectangle `new` in, and moves the
// starts. Keys that both have stay. Until then the front of the starts holds keys: those starts are counted anew.
pub fn ride_keys(
    s: Shape,
    old: Rect,
    new: Rect,
    z: u32,
    u: usize,
    starts: &mut [u32],
    entries: &mut [u32],
) -> Parts
    requires { RideRoom s old new z u starts.old entries.old }
    ensures { KeysRidden s old new z u starts.old starts.new entries.old entries.new result.gone result.come }
{
    let c = find_changes(s, old, new, z, starts);
    swap_changes(starts, c, entries, u);
    swap_starts(starts, c.n, c.gone, c.at, c.come);
    set_starts(&mut starts[..c.n], entries);
    Parts {
        gone: c.gone,
        come: c.come,
    }
}
