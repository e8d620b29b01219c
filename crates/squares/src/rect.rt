// Where a square lies to a rectangle.
ghost use Rattle.std.specs.Prelude.{◌≡◌};
ghost use Rattle.squares.specs.Shape.{within};
ghost use Rattle.squares.specs.Leaves.{meets, Near};

use crate::shape::{Rect, Square};

impl Rect {
    // Whether a square lies wholly inside.
    pub fn within(self, q: Square) -> bool
        requires { Near self q.x q.y q.side }
        ensures { result ≡ within self q.x q.y q.side }
    {
        self.a <= q.x
            && q.x + q.side <= self.a + self.w
            && self.b <= q.y
            && q.y + q.side <= self.b + self.h
    }

    // Whether it shares a cell with the rectangle.
    pub fn meets(self, q: Square) -> bool
        requires { Near self q.x q.y q.side }
        ensures { result ≡ meets self q.x q.y q.side }
    {
        self.a < q.x + q.side
            && q.x < self.a + self.w
            && self.b < q.y + q.side
            && q.y < self.b + self.h
    }
}
