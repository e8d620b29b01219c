// A zone's keys taken out of the entries, and the starts that go with them.
ghost use Rattle.entries.specs.Drops.{in_use, DropRoom, CutRoom, Drops};

use crate::entries::pass_keys;
use crate::gaps::close_gaps;
use crate::keys::write_keys;
use cuts::cut_count;
use squares::{Rect, Shape};
use starts::{lower_starts, set_starts};

// Takes the keys of zone z with rectangle r out of the first u entries, and lowers the starts.
// Until then the front of the starts holds the keys: those starts are counted anew.
fn cut_keys(s: Shape, r: Rect, z: u32, u: usize, starts: &mut [u32], entries: &mut [u32])
    requires { CutRoom s r z u starts.old entries.old }
    ensures { Drops s r z u starts.old starts.new entries.old entries.new }
{
    let n = write_keys(s, r, z, starts);
    close_gaps(starts, n, entries, u);
    lower_starts(starts, n);
    set_starts(&mut starts[..n], entries);
}

// Takes the keys of zone z with rectangle r out of the entries in use, and lowers the starts.
// Where those are less than 8 a level for each key, one pass is quicker than finding each. Tables in which the last start or
// the rectangle is out of bounds are not sound, and stay as they are.
pub fn drop_keys(s: Shape, r: Rect, z: u32, starts: &mut [u32], entries: &mut [u32])
    requires { DropRoom s z starts.old entries.old }
    ensures { Drops s r z (in_use starts.old) starts.old starts.new entries.old entries.new }
{
    let u = starts[starts.len() - 1] as usize;
    if entries.len() < u {
        return;
    }
    if !s.fits(r) {
        return;
    }
    let few = 8 * (s.k as usize + 1);
    if u < few * cut_count(s, r) {
        pass_keys(starts, entries, z, u);
        return;
    }
    cut_keys(s, r, z, u, starts, entries);
}
