// Soundness: all tests together.
ghost use Rattle.std.specs.Prelude.{◌≡◌};
ghost use Rattle.tables.specs.Lent.{given_read};
ghost use Rattle.tables.specs.Sizes.{Sized};
ghost use Rattle.soundness.specs.Tests.{sound};

use crate::cars::Cars;
use crate::lists::{entries_right, starts_right};
use crate::roster::rosters_right;
use crate::tally::tallies_right;
use crate::zones::Zones;
use order::wide;
use tables::{ReadTables, car_room, shape_in, zone_room};

// Whether tables that pass check 3 are sound.
pub fn sound(town: ReadTables<'_>) -> bool
    requires { Sized (given_read town) }
    ensures { result ≡ sound (given_read town.entry) }
{
    let s = shape_in(town.head);
    let Z = wide(zone_room(town.head));
    let C = wide(car_room(town.head));
    let zones = Zones {
        s,
        zones: town.zones,
        many: Z,
    };
    if !zones.all_fit() {
        return false;
    }
    let cars = Cars {
        s,
        cars: town.cars,
        spots: town.spots,
        many: C,
    };
    if !cars.all_fit() {
        return false;
    }
    let u = wide(town.starts[town.starts.len() - 1]);
    if !entries_right(zones, town.entries, u) {
        return false;
    }
    if !starts_right(town.starts, &town.entries[..u]) {
        return false;
    }
    if !rosters_right(zones, cars, town.rosters) {
        return false;
    }
    tallies_right(town.cars, town.rosters, town.tallies, Z)
}
