// A car taken off the map.
ghost use Rattle.tables.specs.Lent.{lent_leave};
ghost use Rattle.promises.specs.Promise.{Keeps};
ghost use Rattle.promises.specs.Events.{left_map};

use lookup::look_up;
use model::Looked;
use squares::Refusal;
use tables::LeaveTables;

// Takes a car off the map: writes the zones that it leaves, lowest first, and answers how many squares were looked into and
// how many zones there are.
#[inline(always)]
pub fn leave_map(town: LeaveTables<'_>, car: u32, left: &mut [u32]) -> Result<Looked, Refusal>
    ensures { Keeps (lent_leave town) (left_map car left result) }
{
    promises::refuse_car(town.seen(), car)?;
    if left.len() < tables::zone_room(town.head) as usize {
        return Err(Refusal::Buffer);
    }
    let LeaveTables {
        head,
        zones: _,
        cars,
        spots,
        starts,
        entries,
        rosters,
        tallies,
    } = town;
    let s = tables::shape_in(head);
    let c = car as usize;
    let team = tables::slot_in(cars, c);
    edits::write_car(cars, c, 0);
    let Some(cell) = position::locate(s, tables::spot_in(spots, c)) else {
        return Ok(Looked {
            squares: 0,
            zones: 0,
        });
    };
    let looked = look_up(s, cell, starts, entries, left);
    let gone = &left[..looked.zones];
    rosters::stamp_rows(rosters, gone, tables::car_room(head), car, 0);
    tallies::move_counts(tallies, gone, team, 0xFFFF_FFFF);
    Ok(looked)
}
