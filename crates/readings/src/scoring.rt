// Whether any zone holds a position.
ghost use Rattle.tables.specs.Lent.{lent_read};
ghost use Rattle.promises.specs.Promise.{Keeps};
ghost use Rattle.promises.specs.Events.{scoring_told};

use lookup::climb_to_zone;
use model::Scoring;
use position::Position;
use squares::Refusal;
use tables::ReadTables;

// Whether any zone holds a position, and how many levels were looked at, from the unit cell up.
pub fn scoring_of_spot(town: ReadTables<'_>, p: Position) -> Result<Scoring, Refusal>
    ensures { Keeps (lent_read town) (scoring_told p result) }
{
    if !town.sized() {
        return Err(Refusal::Tables);
    }
    let s = tables::shape_in(town.head);
    let cell = position::locate(s, p).ok_or(Refusal::OffMap)?;
    Ok(climb_to_zone(s, cell, town.starts))
}
