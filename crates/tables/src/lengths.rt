// Checks 2 and 3: the capacities and the lengths of the tables.
ghost use Rattle.std.specs.Prelude.{◌≡◌};
ghost use Rattle.squares.specs.Bounds.{Allowed};
ghost use Rattle.model.specs.Model.{roomy};
ghost use Rattle.tables.specs.Lent.{given_read};
ghost use Rattle.tables.specs.Check.{long, sized};
ghost use Rattle.tables.specs.Sizes.{Roomy};

use crate::lent::ReadTables;
use crate::records::opened_by;
use crate::tallies::TALLY;
use model::Opening;
use squares::Shape;

// Whether the capacities of zones, cars and entries are within the bounds.
pub fn roomy(o: Opening) -> bool
    ensures { result ≡ roomy o.zones o.cars o.entries }
{
    0 < o.zones
        && o.zones <= Shape::MOST_ZONES
        && 0 < o.cars
        && o.cars <= Shape::MOST_CARS
        && 0 < o.entries
        && o.entries <= Shape::MOST_ENTRIES
}

impl ReadTables<'_> {
    // Whether each table has the length that the shape and the capacities call for.
    pub fn long(self, o: Opening) -> bool
        requires allowed { Allowed o.shape }
        requires roomy { Roomy o.zones o.cars o.entries }
        ensures { result ≡ long o.shape o.zones o.cars o.entries (given_read self.entry) }
    {
        let zones = o.zones as usize;
        let cars = o.cars as usize;
        self.head.len() == 6
            && self.zones.len() == 4 * zones
            && self.cars.len() == cars
            && self.spots.len() == 2 * cars
            && self.starts.len() == o.shape.squares() as usize + 1
            && self.entries.len() == o.entries as usize
            && self.rosters.len() == zones * cars
            && self.tallies.len() == zones * TALLY
    }

    // Whether check 3 passes.
    pub fn sized(self) -> bool
        ensures { result ≡ sized (given_read self.entry) }
    {
        if self.head.len() != 6 {
            return false;
        }
        let o = opened_by(self.head);
        if !o.shape.allowed() {
            return false;
        }
        if !roomy(o) {
            return false;
        }
        self.long(o)
    }
}
