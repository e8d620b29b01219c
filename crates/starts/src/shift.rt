// The starts moved by ranges.
// A list goes with a number where what stands behind it is read or written too, as the clause says.
ghost use Rattle.std.specs.Prelude.{◌≤◌, length, take};
ghost use Rattle.starts.specs.Shift.{Shifts, plus, less, steps, Moved};

use crate::starts::place_after;

// Adds v, around 2^32, to the numbers from place p up to an end; where v is 0 they stay unwritten. Answers up to where they are moved.
pub fn shift_to(list: &mut [u32], p: usize, end: usize, v: u32) -> usize
    requires p_in_bounds { p ≤ length list.old }
    requires end_in_bounds { end ≤ length list.old }
    ensures { Shifts list.old list.new p end v result }
{
    if end <= p {
        return p;
    }
    if v == 0 {
        return end;
    }
    for q in p..end {
        list[q] = list[q].wrapping_add(v);
    }
    end
}

// The first n numbers are keys: each start after them moves by a step, around 2^32, for each of the keys before its place.
fn move_starts(starts: &mut [u32], n: usize, step: u32)
    requires { n ≤ length starts.old }
    ensures { Moved (steps step) (take n starts.old) n starts.old starts.new }
{
    let many = starts.len();
    let mut p = n;
    let mut by = 0u32;
    for j in 0..n {
        let end = place_after(starts[j], many);
        p = shift_to(starts, p, end, by);
        by = by.wrapping_add(step);
    }
    shift_to(starts, p, many, by);
}

// The first n numbers are keys: each start after them moves up by how many of the keys lie before its place.
pub fn raise_starts(starts: &mut [u32], n: usize)
    requires { n ≤ length starts.old }
    ensures { Moved plus (take n starts.old) n starts.old starts.new }
{
    move_starts(starts, n, 1);
}

// The same, down. Two names, since `Moved plus` and `Moved less` are what their callers cite.
pub fn lower_starts(starts: &mut [u32], n: usize)
    requires { n ≤ length starts.old }
    ensures { Moved less (take n starts.old) n starts.old starts.new }
{
    move_starts(starts, n, 0xFFFF_FFFF);
}
