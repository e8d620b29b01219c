// A zone taken away.
ghost use Rattle.tables.specs.Lent.{lent_zone};
ghost use Rattle.promises.specs.Promise.{Keeps};
ghost use Rattle.promises.specs.Events.{removed};

use squares::Refusal;
use tables::ZoneTables;

// Takes a zone away: its entries and its number are free for later zones.
pub fn remove_zone(town: ZoneTables<'_>, zone: u32) -> Result<(), Refusal>
    ensures { Keeps (lent_zone town) (removed zone result) }
{
    promises::refuse_zone(town.seen(), zone)?;
    let ZoneTables {
        head,
        zones,
        cars,
        spots,
        starts,
        entries,
        rosters,
        tallies,
    } = town;
    let z = zone as usize;
    let s = tables::shape_in(head);
    let r = tables::rect_in(zones, z);
    let many = tables::car_room(head);
    edits::clear_zone(zones, z);
    entries::drop_keys(s, r, zone, starts, entries);
    rosters::clear_row(rosters, z, many);
    tallies::clear_tally(tallies, z);
    Ok(())
}
