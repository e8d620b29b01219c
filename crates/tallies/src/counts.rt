// A zone's numbers, written: its count, its counts by team, its holder.
ghost use Rattle.std.specs.Prelude.{◌≡◌, ◌+◌, ◌*◌, ◌<◌, ◌≤◌, length, replicate};
ghost use Rattle.std.proofs.lemmas.List.Edits.{sets};
ghost use Rattle.model.specs.Teams.{last_team};
ghost use Rattle.tables.specs.Tables.{tally};
ghost use Rattle.tables.specs.Rows.{RowThere};
ghost use Rattle.tallies.specs.Counts.{bumped, raised, settled, swung, joined, counted, turned, moved};

use crate::holder::holder_in;
use tables::{TALLY, slot_in};

// ---- a zone's row

// Adds v, around 2^32, to one of its numbers.
fn raise_at(row: &mut [u32], at: usize, v: u32)
    requires { at < length row.old }
    ensures { row.new ≡ bumped row.old at v }
{
    row[at] = std::num::wrapping_add_u32(row[at], v);
}

// Adds v to its count and to that of team g.
fn raise(row: &mut [u32], g: usize, v: u32)
    requires row_len { length row.old ≡ tally }
    requires g_le_last_team { g ≤ last_team }
    ensures { row.new ≡ raised row.old g v }
{
    raise_at(row, 0, v);
    raise_at(row, g + 1, v);
}

// Works its holder out from its counts.
fn settle(row: &mut [u32])
    requires { length row.old ≡ tally }
    ensures { row.new ≡ settled row.old }
{
    let holder = holder_in(row);
    row[9] = holder;
}

// Both: the counts, and then the holder, which a spectator does not change.
#[tactic(auto, unfolding(crate::specs::Counts::swung))]
fn turn(row: &mut [u32], g: usize, v: u32)
    requires row_len { length row.old ≡ tally }
    requires g_le_last_team { g ≤ last_team }
    ensures { row.new ≡ swung row.old g v }
{
    raise(row, g, v);
    if 0 < g {
        settle(row);
    }
}

// ---- zones that a car enters and leaves

// Adds v cars of team g to a zone whose numbers are there.
fn turn_zone(tallies: &mut [u32], z: u32, g: usize, v: u32)
    requires { g ≤ last_team }
    ensures { tallies.new ≡ turned tallies.old z g v }
{
    let from = z as usize * TALLY;
    let end = from + TALLY;
    if end <= tallies.len() {
        turn(&mut tallies[from..end], g, v);
    }
}

// Adds v cars, around 2^32, of team g to each zone of a list.
pub fn move_counts(tallies: &mut [u32], zones: &[u32], g: usize, v: u32)
    requires { g ≤ last_team }
    ensures { tallies.new ≡ moved tallies.old zones.now g v }
{
    for z in zones {
        turn_zone(tallies, *z, g, v);
    }
}

// ---- a zone's numbers anew

// Counts a car where its byte is not 0.
fn join(row: &mut [u32], byte: u8, g: usize)
    requires row_len { length row.old ≡ tally }
    requires g_le_last_team { g ≤ last_team }
    ensures { row.new ≡ joined byte g row.old }
{
    if byte != 0 {
        raise(row, g, 1);
    }
}

// The numbers of zone z, by its row of the rosters and the cars' records.
pub fn count_cars(cars: &[u32], rosters: &[u8], z: usize, row: &mut [u32])
    requires row_there { RowThere rosters.now z (length cars.now) }
    requires row_len { length row.old ≡ tally }
    ensures { row.new ≡ counted cars.now rosters.now (z * length cars.now) (length cars.now) }
{
    row.fill(0);
    let many = cars.len();
    let from = z * many;
    for c in 0..many {
        join(row, rosters[from + c], slot_in(cars, c));
    }
    settle(row);
}

// Writes them.
pub fn fill_tally(cars: &[u32], rosters: &[u8], tallies: &mut [u32], z: usize)
    requires row_there { RowThere rosters.now z (length cars.now) }
    requires tally_in_bounds { z * tally + tally ≤ length tallies.old }
    ensures { tallies.new ≡ sets tallies.old (z * tally) (counted cars.now rosters.now (z * length cars.now) (length cars.now)) }
{
    let from = z * TALLY;
    let end = from + TALLY;
    count_cars(cars, rosters, z, &mut tallies[from..end]);
}

// Sets them to 0.
pub fn clear_tally(tallies: &mut [u32], z: usize)
    requires { z * tally + tally ≤ length tallies.old }
    ensures { tallies.new ≡ sets tallies.old (z * tally) (replicate tally 0) }
{
    let from = z * TALLY;
    let end = from + TALLY;
    tallies[from..end].fill(0);
}
