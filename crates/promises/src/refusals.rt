// The refusals that several calls share.
ghost use Rattle.std.specs.Prelude.{◌≡◌};
ghost use Rattle.squares.specs.Refusals.{refused_by};
ghost use Rattle.model.specs.Model.{removing, ask_where};
ghost use Rattle.tables.specs.Lent.{given_read};
ghost use Rattle.promises.specs.Promise.{bars};

use squares::Refusal;
use tables::{ReadTables, car_room, placed_in, stands_in, zone_room};

// What a call on a standing zone asks: 3, 4, 7.
#[inline(always)]
pub fn refuse_zone(town: ReadTables<'_>, zone: u32) -> Result<(), Refusal>
    ensures { refused_by result ≡ bars (given_read town.entry) (removing zone) }
{
    if !town.sized() {
        return Err(Refusal::Tables);
    }
    if zone_room(town.head) <= zone {
        return Err(Refusal::ZoneNumber);
    }
    if !stands_in(town.zones, zone as usize) {
        return Err(Refusal::NoZone);
    }
    Ok(())
}

// What a call on a car on the map asks: 3, 5, 8.
#[inline(always)]
pub fn refuse_car(town: ReadTables<'_>, car: u32) -> Result<(), Refusal>
    ensures { refused_by result ≡ bars (given_read town.entry) (ask_where car) }
{
    if !town.sized() {
        return Err(Refusal::Tables);
    }
    if car_room(town.head) <= car {
        return Err(Refusal::CarNumber);
    }
    if !placed_in(town.cars, car as usize) {
        return Err(Refusal::NoCar);
    }
    Ok(())
}
