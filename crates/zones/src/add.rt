// A zone added.
ghost use Rattle.std.specs.Prelude.{◌≡◌};
ghost use Rattle.squares.specs.Refusals.{refused_by};
ghost use Rattle.model.specs.Model.{adding};
ghost use Rattle.tables.specs.Lent.{given_read, lent_zone};
ghost use Rattle.promises.specs.Promise.{bars, Keeps};
ghost use Rattle.promises.specs.Events.{added};

use model::Added;
use squares::{Rect, Refusal};
use tables::{ReadTables, ZoneTables};

// What a new zone asks before its entries are counted: 3, 4, 6, 9.
fn refuse_new(town: ReadTables<'_>, zone: u32, r: Rect) -> Result<(), Refusal>
    ensures { refused_by result ≡ bars (given_read town.entry) (adding zone r) }
{
    if !town.sized() {
        return Err(Refusal::Tables);
    }
    if tables::zone_room(town.head) <= zone {
        return Err(Refusal::ZoneNumber);
    }
    if tables::stands_in(town.zones, zone as usize) {
        return Err(Refusal::ZoneStands);
    }
    if !tables::shape_in(town.head).fits(r) {
        return Err(Refusal::Rectangle);
    }
    Ok(())
}

// Adds a zone, and puts the cars inside on its roster. Answers how many squares its cut has and how many cars those are.
pub fn add_zone(town: ZoneTables<'_>, zone: u32, r: Rect) -> Result<Added, Refusal>
    ensures { Keeps (lent_zone town) (added zone r result) }
{
    refuse_new(town.seen(), zone, r)?;
    let ZoneTables {
        head,
        zones,
        cars,
        spots,
        starts,
        entries,
        rosters,
        tallies,
    } = town;
    let s = tables::shape_in(head);
    let used = starts[starts.len() - 1] as usize;
    let n = cuts::cut_count(s, r);
    if entries.len() < used + n {
        return Err(Refusal::Entries);
    }
    let z = zone as usize;
    let many = tables::car_room(head);
    edits::write_zone(zones, z, r);
    entries::add_keys(s, r, zone, used, starts, entries);
    let inside = rosters::fill_row(s, cars, spots, r, rosters, z, many);
    tallies::fill_tally(cars, rosters, tallies, z);
    Ok(Added {
        squares: n,
        cars: inside,
    })
}
