// The cut of a rectangle into a lent buffer.
ghost use Rattle.std.specs.Prelude.{◌≡◌, [], ◌∷◌};
ghost use Rattle.squares.specs.Shape.{shape};
ghost use Rattle.grid.specs.Promises.{makes, cut_is, cut_gives};

use cuts::{cut_count, cut_levels};
use squares::{Rect, Refusal, Shape};

// Writes the squares of the cut to the front of `out` and answers how many they are.
// They are counted first, so that a refusal leaves the buffer as it was.
#[tactic(auto, using(crate::proofs::Rooms::no_room, crate::proofs::Rooms::made, crate::proofs::Rooms::is_allowed))]
pub fn cut_of_rectangle(k: u32, P: u32, Q: u32, r: Rect, out: &mut [u32]) -> Result<usize, Refusal>
    ensures { makes (out.new ∷ []) (cut_is result) ≡ cut_gives (shape k P Q) r out.old }
{
    let s = Shape::new(k, P, Q)?;
    if !s.fits(r) {
        return Err(Refusal::Rectangle);
    }
    let count = cut_count(s, r);
    if out.len() < count {
        return Err(Refusal::Buffer);
    }
    Ok(cut_levels(s, r, out))
}
