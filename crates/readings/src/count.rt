// How many cars are in a zone.
ghost use Rattle.tables.specs.Lent.{lent_read};
ghost use Rattle.promises.specs.Promise.{Keeps};
ghost use Rattle.promises.specs.Events.{count_told};

use squares::Refusal;
use tables::ReadTables;

// The number of cars in a zone, as stored.
pub fn count_of_zone(town: ReadTables<'_>, zone: u32) -> Result<u32, Refusal>
    ensures { Keeps (lent_read town) (count_told zone result) }
{
    promises::refuse_zone(town, zone)?;
    Ok(tables::count_in(town.tallies, zone as usize))
}
