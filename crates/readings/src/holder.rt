// How a zone stands between the teams.
ghost use Rattle.tables.specs.Lent.{lent_read};
ghost use Rattle.promises.specs.Promise.{Keeps};
ghost use Rattle.promises.specs.Events.{holder_told};

use model::Standing;
use squares::Refusal;
use tables::ReadTables;

// How many cars of each team are in a zone, and the team that holds it, as stored.
pub fn holder_of_zone(town: ReadTables<'_>, zone: u32) -> Result<Standing, Refusal>
    ensures { Keeps (lent_read town) (holder_told zone result) }
{
    promises::refuse_zone(town, zone)?;
    Ok(tables::standing_in(town.tallies, zone as usize))
}
