// A report: a car placed or moved.
ghost use Rattle.std.specs.Prelude.{◌+◌, ◌*◌, ◌<◌, ◌≤◌, ◌≡◌, length};
ghost use Rattle.squares.specs.Squares.{squares};
ghost use Rattle.squares.specs.Leaves.{OnMap};
ghost use Rattle.tables.specs.Lent.{given_read, lent_report};
ghost use Rattle.promises.specs.Promise.{Keeps};
ghost use Rattle.promises.specs.Events.{reported};
ghost use Rattle.lookup.specs.Looks.{Enters};
ghost use Rattle.cars.specs.Admits.{admitted, SeesIn};

use lookup::{cross, look_up};
use model::Crossed;
use position::Position;
use squares::{Cell, Refusal, Shape};
use tables::{ReadTables, ReportTables};

// The cell that a report goes to.
#[inline(always)]
fn admit(
    town: ReadTables<'_>,
    car: u32,
    team: u32,
    p: Position,
    entered: &[u32],
    left: &[u32],
) -> Result<Cell, Refusal>
    ensures { result ≡ admitted (given_read town.entry) car team p entered.now left.now }
{
    if !town.sized() {
        return Err(Refusal::Tables);
    }
    if tables::car_room(town.head) <= car {
        return Err(Refusal::CarNumber);
    }
    if !tables::team_fits(town.cars, car as usize, team) {
        return Err(Refusal::Team);
    }
    let s = tables::shape_in(town.head);
    let cell = position::locate(s, p).ok_or(Refusal::OffMap)?;
    let many = tables::zone_room(town.head) as usize;
    if entered.len() < many || left.len() < many {
        return Err(Refusal::Buffer);
    }
    Ok(cell)
}

// The zones that a car enters from off the map.
fn enter(s: Shape, town: ReadTables<'_>, cell: Cell, entered: &mut [u32]) -> Crossed
    requires on_map { OnMap s cell.x cell.y }
    requires starts_len { length town.starts.now ≡ squares s + 1 }
    ensures { Enters s cell.x cell.y (given_read town.entry).derived.starts (given_read town.entry).derived.entries entered.old entered.new result }
{
    let looked = look_up(s, cell, town.starts, town.entries, entered);
    Crossed {
        squares: looked.squares,
        entered: looked.zones,
        left: 0,
    }
}

// The zones that car c enters and leaves on its way to a cell.
#[inline(always)]
fn see(
    s: Shape,
    town: ReadTables<'_>,
    c: usize,
    cell: Cell,
    entered: &mut [u32],
    left: &mut [u32],
) -> Crossed
    requires on_map { OnMap s cell.x cell.y }
    requires starts_len { length town.starts.now ≡ squares s + 1 }
    requires c_in_bounds { c < length town.cars.now }
    requires c_in_bounds_2 { 2 * c + 2 ≤ length town.spots.now }
    ensures { SeesIn s (given_read town.entry) c cell.x cell.y entered.old entered.new left.old left.new result }
{
    if !tables::placed_in(town.cars, c) {
        return enter(s, town, cell, entered);
    }
    let Some(old) = position::locate(s, tables::spot_in(town.spots, c)) else {
        return enter(s, town, cell, entered);
    };
    if old == cell {
        return Crossed {
            squares: 0,
            entered: 0,
            left: 0,
        };
    }
    cross(
        s,
        town.zones,
        town.starts,
        town.entries,
        old,
        cell,
        entered,
        left,
    )
}

// Two buffers, here and where they are handed on, and no struct of them: C lends each by itself.
// Places or moves a car of a team: stores both, writes the zones that the car enters and those that it leaves, lowest first,
// and answers how many squares were looked into and how many zones were written to each buffer.
#[inline(always)]
pub fn report_car(
    town: ReportTables<'_>,
    car: u32,
    team: u32,
    p: Position,
    entered: &mut [u32],
    left: &mut [u32],
) -> Result<Crossed, Refusal>
    ensures { Keeps (lent_report town) (reported car team p entered left result) }
{
    let cell = admit(town.seen(), car, team, p, entered, left)?;
    let s = tables::shape_in(town.head);
    let c = car as usize;
    let seen = see(s, town.seen(), c, cell, entered, left);
    let ReportTables {
        head,
        zones: _,
        cars,
        spots,
        starts: _,
        entries: _,
        rosters,
        tallies,
    } = town;
    let many = tables::car_room(head);
    let came = &entered[..seen.entered];
    let gone = &left[..seen.left];
    rosters::stamp_rows(rosters, came, many, car, 1);
    rosters::stamp_rows(rosters, gone, many, car, 0);
    tallies::move_counts(tallies, came, team as usize, 1);
    tallies::move_counts(tallies, gone, team as usize, 0xFFFF_FFFF);
    edits::write_spot(spots, c, p);
    edits::write_car(cars, c, team + 1);
    Ok(seen)
}
