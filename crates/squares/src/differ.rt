// On how many levels two cells lie in different squares.
ghost use Rattle.squares.specs.Leaves.{StepsApart};

use crate::shape::Cell;

// From two unit cells up, k steps to level 0: how many squares on the way differ. They do up to the
// highest bit in which a coordinate does.
pub fn steps_apart(k: u32, from: Cell, to: Cell) -> u32
    ensures { StepsApart k from.x from.y to.x to.y result }
{
    let steps = 32 - u32::leading_zeros((from.x ^ to.x) | (from.y ^ to.y));
    if k < steps {
        return k + 1;
    }
    steps
}
