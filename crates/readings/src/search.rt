// The zones that hold a position.
ghost use Rattle.tables.specs.Lent.{lent_read};
ghost use Rattle.promises.specs.Promise.{Keeps};
ghost use Rattle.promises.specs.Events.{searched};

use lookup::look_up;
use model::Looked;
use position::Position;
use squares::Refusal;
use tables::ReadTables;

// Writes the zones that hold a position, lowest first, and answers how many squares were looked into and how many
// zones there are.
#[inline(always)]
pub fn search_zones(town: ReadTables<'_>, p: Position, found: &mut [u32]) -> Result<Looked, Refusal>
    ensures { Keeps (lent_read town) (searched p found result) }
{
    if !town.sized() {
        return Err(Refusal::Tables);
    }
    let s = tables::shape_in(town.head);
    let cell = position::locate(s, p).ok_or(Refusal::OffMap)?;
    if found.len() < tables::zone_room(town.head) as usize {
        return Err(Refusal::Buffer);
    }
    Ok(look_up(s, cell, town.starts, town.entries, found))
}
