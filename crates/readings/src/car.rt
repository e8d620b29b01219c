// Where a car is.
ghost use Rattle.tables.specs.Lent.{lent_read};
ghost use Rattle.promises.specs.Promise.{Keeps};
ghost use Rattle.promises.specs.Events.{where_told};

use position::Position;
use squares::Refusal;
use tables::ReadTables;

// The stored position of a car.
pub fn where_is_car(town: ReadTables<'_>, car: u32) -> Result<Position, Refusal>
    ensures { Keeps (lent_read town) (where_told car result) }
{
    promises::refuse_car(town, car)?;
    Ok(tables::spot_in(town.spots, car as usize))
}
