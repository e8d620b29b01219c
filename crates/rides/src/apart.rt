// The keys that one rectangle has and another has not, square by square.
ghost use Rattle.rides.specs.Apart.{SievedRoom, Sieved, ApartRoom, WroteApart};

use cuts::{cut_levels, in_cut};
use entries::key_codes;
use squares::{Rect, Shape};

// Moves the squares that are not in the cut of a rectangle to the front, in order. Answers how many they are.
fn sieve_codes(s: Shape, r: Rect, codes: &mut [u32]) -> usize
    requires { SievedRoom s r codes.old }
    ensures { Sieved s r codes.old codes.new result }
{
    let mut kept = 0;
    for i in 0..codes.len() {
        let code = codes[i];
        codes[kept] = code;
        if !in_cut(s, r, code / 1048576, code % 1048576) {
            kept += 1;
        }
    }
    kept
}

// Writes the keys of zone z that rectangle r has and `other` has not to the front of a buffer. Answers how many they are.
pub fn write_apart(s: Shape, r: Rect, other: Rect, z: u32, keys: &mut [u32]) -> usize
    requires { ApartRoom s r other z keys.old }
    ensures { WroteApart s r other z keys.old keys.new result }
{
    let n = cut_levels(s, r, keys);
    let kept = sieve_codes(s, other, &mut keys[..n]);
    key_codes(s, z, &mut keys[..kept]);
    kept
}
