// The keys that a zone drops and those that it takes up as it rides, written to the front of the starts.
ghost use Rattle.rides.specs.Changes.{ChangeRoom, Changed};

use crate::apart::write_apart;
use crate::part::part_keys;
use cuts::cut_count;
use entries::write_keys_into;
use squares::{Rect, Shape};

// Where they stand: so many that are dropped at the front, and so many that are taken up from a place on, all among the first n.
#[derive(Clone, Copy)]
pub struct Changes {
    pub gone: usize,
    pub at: usize,
    pub come: usize,
    pub n: usize,
}

// Writes them where the keys of both rectangles together have no room: squares of both are taken out of each list by itself,
// and the second list is written after what is left of the first.
fn tight_changes(s: Shape, old: Rect, new: Rect, z: u32, starts: &mut [u32]) -> Changes
    requires { ChangeRoom s old new z starts.old }
    ensures { Changed s old new z starts.old starts.new result.gone result.at result.come result.n }
{
    let gone = write_apart(s, old, new, z, starts);
    let come = write_apart(s, new, old, z, &mut starts[gone..]);
    let n = cut_count(s, old).max(gone + cut_count(s, new));
    Changes {
        gone,
        at: gone,
        come,
        n,
    }
}

// Writes the keys of zone z that rectangle `old` has and `new` has not, and the other way round.
pub fn find_changes(s: Shape, old: Rect, new: Rect, z: u32, starts: &mut [u32]) -> Changes
    requires { ChangeRoom s old new z starts.old }
    ensures { Changed s old new z starts.old starts.new result.gone result.at result.come result.n }
{
    let n = cut_count(s, old);
    let m = cut_count(s, new);
    if starts.len() < n + m {
        return tight_changes(s, old, new, z, starts);
    }
    write_keys_into(s, old, z, starts);
    write_keys_into(s, new, z, &mut starts[n..]);
    let p = part_keys(starts, n, m);
    Changes {
        gone: p.gone,
        at: n,
        come: p.come,
        n: n + m,
    }
}
