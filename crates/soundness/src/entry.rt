// The square at an entry's place.
ghost use Rattle.soundness.specs.Tests.{InTown, At};

use squares::Shape;

// A square by its level and its number there.
#[derive(Clone, Copy)]
pub struct Leveled {
    pub level: u32,
    pub number: u32,
}

// The square at a place.
pub fn square_at(s: Shape, p: u32) -> Leveled
    requires { InTown s p }
    ensures { At s p result }
{
    let mut number = p;
    let mut count = s.P * s.Q;
    for level in 0..s.k {
        if number < count {
            return Leveled { level, number };
        }
        number -= count;
        count *= 4;
    }
    Leveled { level: s.k, number }
}
