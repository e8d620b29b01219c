// What a record needs before its call: the part of the starts that the town has, a position from its bits, the room for an M.
ghost use Rattle.std.specs.Prelude.{◌≤◌, ◌≡◌, length, take};
ghost use Rattle.squares.specs.Bounds.{Allowed};
ghost use Rattle.season.specs.Output.{position_of};
ghost use Rattle.room.specs.Room.{places_of};
ghost use Rattle.room.specs.Leaves.{roomy, OpenRoom};

use position::Position;
use squares::{Refusal, Shape};

// How many of the starts the town in head needs, or how many there are: none where no town is open.
pub fn places_in(head: &[u32], starts: &[u32]) -> usize
    requires { 3 ≤ length head.now }
    ensures { result ≡ length (take (places_of head.now) starts.now) }
{
    let s = tables::shape_in(head);
    if s.allowed() {
        starts.len().min(s.squares() as usize + 1)
    } else {
        0
    }
}

// The position with these bits, one pattern for each coordinate.
pub fn position_of(x: u32, y: u32) -> Position
    ensures { result ≡ position_of x y }
{
    Position {
        x: position::float_of(x),
        y: position::float_of(y),
    }
}

// Whether a town is within 64 by 64.
fn roomy(s: Shape) -> bool
    requires { Allowed s }
    ensures { result ≡ roomy s }
{
    s.width() <= 64 && s.height() <= 64
}

// How many starts an M's town needs: 1 refuses a shape beyond the bounds, 3 a town of more than 64 by 64.
pub fn open_room(k: u32, P: u32, Q: u32) -> Result<usize, Refusal>
    ensures { OpenRoom k P Q result }
{
    let s = Shape::new(k, P, Q)?;
    if !roomy(s) {
        return Err(Refusal::Tables);
    }
    Ok(s.squares() as usize + 1)
}
