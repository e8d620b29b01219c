// An empty town.
ghost use Rattle.std.specs.Prelude.{◌≡◌};
ghost use Rattle.squares.specs.Refusals.{refused_by};
ghost use Rattle.model.specs.Model.{opening};
ghost use Rattle.tables.specs.Lent.{given_read, lent_open};
ghost use Rattle.promises.specs.Promise.{bars, Keeps};
ghost use Rattle.promises.specs.Events.{opened};

use model::Opening;
use squares::{Refusal, Shape};
use tables::{OpenTables, ReadTables};

fn refuse_open(town: ReadTables<'_>, o: Opening) -> Result<(), Refusal>
    ensures { refused_by result ≡ bars (given_read town.entry) (opening o) }
{
    let Shape { k, P, Q } = o.shape;
    Shape::new(k, P, Q)?;
    if !tables::roomy(o) {
        return Err(Refusal::Capacity);
    }
    if !town.long(o) {
        return Err(Refusal::Tables);
    }
    Ok(())
}

// Writes a town with no zone and no car, whatever lay in the tables.
#[inline(always)]
pub fn open_town(town: OpenTables<'_>, o: Opening) -> Result<(), Refusal>
    ensures { Keeps (lent_open town) (opened o result) }
{
    refuse_open(town.seen(), o)?;
    let OpenTables {
        head,
        zones,
        cars,
        spots,
        starts,
        entries,
        rosters,
        tallies,
    } = town;
    tables::write_head(head, o);
    zones.fill(0);
    cars.fill(0);
    spots.fill(0.0);
    starts.fill(0);
    entries.fill(0xFFFF_FFFF);
    rosters.fill(0);
    tallies.fill(0);
    Ok(())
}
