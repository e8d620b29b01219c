// A zone moved.
ghost use Rattle.std.specs.Prelude.{◌≤◌, ◌≡◌};
ghost use Rattle.squares.specs.Shape.{most_entries};
ghost use Rattle.squares.specs.Bounds.{Allowed, Fits};
ghost use Rattle.squares.specs.Refusals.{refused_by};
ghost use Rattle.model.specs.Model.{riding};
ghost use Rattle.tables.specs.Lent.{given_read, lent_zone};
ghost use Rattle.promises.specs.Promise.{bars, Keeps};
ghost use Rattle.promises.specs.Events.{rode};
ghost use Rattle.zones.specs.Rooms.{has_room};

use model::Ridden;
use squares::{Rect, Refusal, Shape};
use tables::{ReadTables, ZoneTables};

// What a ride asks before entries are counted: 3, 4, 7, 9, 11.
fn refuse_ride(
    town: ReadTables<'_>,
    zone: u32,
    dx: i32,
    dy: i32,
    entered: &[u32],
    left: &[u32],
) -> Result<(), Refusal>
    ensures { refused_by result ≡ bars (given_read town.entry) (riding zone dx dy entered.now left.now) }
{
    promises::refuse_zone(town, zone)?;
    let new = tables::rect_in(town.zones, zone as usize).ride(dx, dy);
    if !tables::shape_in(town.head).fits(new) {
        return Err(Refusal::Rectangle);
    }
    let many = tables::car_room(town.head) as usize;
    if entered.len() < many {
        return Err(Refusal::Buffer);
    }
    if left.len() < many {
        return Err(Refusal::Buffer);
    }
    Ok(())
}

// Whether so many entries have room for a rectangle's squares in place of another's, of which so many are in use.
// Where that other does not lie in the town, or more are in use than there are, the tables are not sound: there is none.
fn has_room(s: Shape, old: Rect, new: Rect, used: usize, many: usize) -> bool
    requires allowed { Allowed s }
    requires fits { Fits s new }
    requires many_le_most_entries { many ≤ most_entries }
    ensures { result ≡ has_room s old new used many }
{
    if !s.fits(old) {
        return false;
    }
    if many < used {
        return false;
    }
    let gone = cuts::cut_count(s, old);
    let come = cuts::cut_count(s, new);
    used + come <= many + gone
}

// Two buffers, here and where they are handed on, and no struct of them: C lends each by itself.
// Moves a zone by so many columns and rows, and puts the cars inside on its roster. Squares that its old and its new cut have keep
// their entry. Answers how many squares were dropped and taken up, and how many cars entered and left by the ride.
pub fn ride_zone(
    town: ZoneTables<'_>,
    zone: u32,
    dx: i32,
    dy: i32,
    entered: &mut [u32],
    left: &mut [u32],
) -> Result<Ridden, Refusal>
    ensures { Keeps (lent_zone town) (rode zone dx dy entered left result) }
{
    refuse_ride(town.seen(), zone, dx, dy, entered, left)?;
    let ZoneTables {
        head,
        zones,
        cars,
        spots,
        starts,
        entries,
        rosters,
        tallies,
    } = town;
    let s = tables::shape_in(head);
    let z = zone as usize;
    let old = tables::rect_in(zones, z);
    let new = old.ride(dx, dy);
    let used = starts[starts.len() - 1] as usize;
    if !has_room(s, old, new, used, entries.len()) {
        return Err(Refusal::Entries);
    }
    let many = tables::car_room(head);
    edits::write_zone(zones, z, new);
    let keys = rides::ride_keys(s, old, new, zone, used, starts, entries);
    let moved = rosters::ride_row(s, cars, spots, new, rosters, z, many, entered, left);
    tallies::fill_tally(cars, rosters, tallies, z);
    Ok(Ridden {
        dropped: keys.gone,
        taken: keys.come,
        entered: moved.entered,
        left: moved.left,
    })
}
