// The lines of an input that comes in pieces.
// A list goes with a number where what stands behind it is read or written too, as the clause says.
ghost use Rattle.std.specs.Prelude.{◌≤◌, length};
ghost use Rattle.line.specs.Leaves.{Holds};
ghost use Rattle.line.specs.Takes.{Room, Takes};

use crate::scan::end_of;

// A line taken out of a piece: up to where, how many bytes of it stand in the buffer, whether it has ended, and how many of
// them are held for the next piece, none where it has. `Takes` and whoever fills pieces name the four, so `whole` stays beside `held`.
#[derive(Clone, Copy)]
pub struct Taken {
    pub next: usize,
    pub bytes: usize,
    pub whole: bool,
    pub held: usize,
}

// The bytes of a part after the first n of the buffer, until 81 are held.
fn hold(part: &[u8], held: &mut [u8], n: usize) -> usize
    requires { Room held.old n }
    ensures { Holds part.now held.old held.new n result }
{
    let mut m = n;
    for byte in part {
        if m == 81 {
            return 81;
        }
        held[m] = *byte;
        m += 1;
    }
    m
}

// The bytes of a piece from a place on, up to its next feed or its end, after the first n of the buffer.
pub fn take_line(piece: &[u8], at: usize, held: &mut [u8], n: usize) -> Taken
    requires at_in_bounds { at ≤ length piece.now }
    requires room { Room held.old n }
    ensures { Takes piece.now at held.old held.new n result.next result.bytes result.whole result.held }
{
    let end = end_of(piece, at, b'\n');
    let m = hold(&piece[at..end], held, n);
    if end < piece.len() {
        return Taken {
            next: end + 1,
            bytes: m,
            whole: true,
            held: 0,
        };
    }
    Taken {
        next: end,
        bytes: m,
        whole: false,
        held: m,
    }
}
