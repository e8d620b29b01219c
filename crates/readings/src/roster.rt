// The cars of a zone.
ghost use Rattle.tables.specs.Lent.{lent_read};
ghost use Rattle.promises.specs.Promise.{Keeps};
ghost use Rattle.promises.specs.Events.{roster_told};

use squares::Refusal;
use tables::ReadTables;

// Writes the cars of a zone's roster, lowest first, and answers how many they are.
#[inline(always)]
pub fn roster_of_zone(town: ReadTables<'_>, zone: u32, inside: &mut [u32]) -> Result<usize, Refusal>
    ensures { Keeps (lent_read town) (roster_told zone inside result) }
{
    promises::refuse_zone(town, zone)?;
    let many = tables::car_room(town.head);
    if inside.len() < many as usize {
        return Err(Refusal::Buffer);
    }
    Ok(tables::list_cars(town.rosters, zone as usize, many, inside))
}
