// A rectangle moved by signed numbers of columns and rows.
ghost use Rattle.std.specs.Prelude.{◌≡◌, pos, ◌+ℤ◌};
ghost use Rattle.squares.specs.Slide.{Slides, Rides};

use crate::shape::Rect;

fn sum_of(a: u32, d: i32) -> i64
    ensures { result ≡ pos a +ℤ d }
{
    i64::from(a) + i64::from(d)
}

// A coordinate moved, or 256 where it would be below 0 or above that: no Option, since `Rides` gives a rectangle in each case.
fn slide(a: u32, d: i32) -> u32
    ensures { Slides a d result }
{
    let sum = sum_of(a, d);
    if sum < 0 {
        return 256;
    }
    if 256 < sum {
        return 256;
    }
    sum as u32
}

impl Rect {
    // The rectangle moved, or one that lies in no town where a corner would be below 0 or past every town.
    pub fn ride(self, dx: i32, dy: i32) -> Rect
        ensures { Rides dx dy self result }
    {
        let w = self.w;
        let h = self.h;
        let a = slide(self.a, dx);
        let b = slide(self.b, dy);
        Rect { a, b, w, h }
    }
}
