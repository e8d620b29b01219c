// The first square of a cell that has a zone on its list.
ghost use Rattle.std.specs.Prelude.{◌+◌, ◌≡◌, length};
ghost use Rattle.squares.specs.Squares.{squares};
ghost use Rattle.squares.specs.Leaves.{OnMap};
ghost use Rattle.lookup.specs.Looks.{Climbs};

use model::Scoring;
use squares::{Cell, Shape};

// From the unit cell up to the first square whose list is not empty: how many levels were looked at, and whether there is one.
pub fn climb_to_zone(s: Shape, cell: Cell, starts: &[u32]) -> Scoring
    requires on_map { OnMap s cell.x cell.y }
    requires starts_len { length starts.now ≡ squares s + 1 }
    ensures { Climbs s cell.x cell.y starts.now result }
{
    let mut place = tables::place_of(s, s.k, s.number(s.k, cell));
    let mut levels = 1;
    // No `for`: that a loop yields the answer by `break` is a rule of the project (DECISIONS 72).
    loop {
        if tables::listed(starts, place) {
            break Scoring { held: true, levels };
        }
        if levels > s.k {
            break Scoring {
                held: false,
                levels,
            };
        }
        place = tables::parent_of(s, place);
        levels += 1;
    }
}
