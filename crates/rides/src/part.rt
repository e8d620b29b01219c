// The keys of an old place and of a new one, parted: those that are dropped and those that are taken up.
// A list goes with a number where what stands behind it is read or written too, as the clause says.
ghost use Rattle.std.specs.Prelude.{◌+◌, ◌≤◌, length};
ghost use Rattle.rides.specs.Part.{Parted};

use order::is_lower;

// How many keys are dropped, and how many are taken up.
#[derive(Clone, Copy)]
pub struct Parts {
    pub gone: usize,
    pub come: usize,
}

// The first n numbers and the m after them are two rising lists. Those of the first that the second has not come to the front,
// and those of the second that the first has not to the place n. Answers how many they are.
pub fn part_keys(keys: &mut [u32], n: usize, m: usize) -> Parts
    requires { n + m ≤ length keys.old }
    ensures { Parted keys.old keys.new n m result.gone result.come }
{
    let end = n + m;
    let mut gone = 0;
    let mut come = 0;
    let mut i = 0;
    let mut j = 0;
    // A `while`: two lists are merged, each by an index of its own, and a `for` would still count both by hand.
    while i + j < end {
        let next = n + j;
        if is_lower(keys, i, n, next, end) {
            keys[gone] = keys[i];
            gone += 1;
            i += 1;
            continue;
        }
        j += 1;
        if is_lower(keys, next, end, i, n) {
            keys[n + come] = keys[next];
            come += 1;
            continue;
        }
        i += 1;
    }
    Parts { gone, come }
}
