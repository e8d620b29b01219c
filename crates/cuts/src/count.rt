// How many squares a cut has, level by level.
ghost use Rattle.std.specs.Prelude.{◌^◌};
ghost use Rattle.cuts.specs.Count.{wholes};
ghost use Rattle.cuts.specs.Leaves.{AllRoom, Counted, PlacesRoom, Placed, Stretch};
ghost use Rattle.squares.specs.Leaves.{Below};

use squares::{Rect, Shape, two_to};

// How many squares the cut has.
pub fn cut_count(s: Shape, r: Rect) -> usize
    requires { AllRoom s r }
    ensures { Counted s r result }
{
    let mut places = [0usize; 6];
    let levels = s.k as usize + 1;
    set_places(s, r, &mut places[..levels])
}

// Sets for each level the place where its squares begin in the cut, and answers how many squares
// the cut has. Of those inside on a level, four for each one inside on the level above have that
// one as their parent, and the others are in the cut.
pub fn set_places(s: Shape, r: Rect, places: &mut [usize]) -> usize
    requires { PlacesRoom s r places.old }
    ensures { Placed s r places.new result }
{
    let mut total = 0u32;
    let mut above = 0u32;
    for level in 0..=s.k {
        places[level as usize] = total as usize;
        let inside = wholes(r.a, r.w, s.k - level) * wholes(r.b, r.h, s.k - level);
        total += inside - 4 * above;
        above = inside;
    }
    total as usize
}

// How many whole steps of 2^j lie from a on in a stretch of w.
fn wholes(a: u32, w: u32, j: u32) -> u32
    requires { Stretch a w j }
    ensures { Below (wholes a w (2 ^ j)) 257 result }
{
    let first = (a + two_to(j) - 1) >> j;
    let end = (a + w) >> j;
    if end < first {
        return 0;
    }
    end - first
}
