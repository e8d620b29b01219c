// The tallies: whether each zone's numbers are right.
ghost use Rattle.std.specs.Prelude.{ℕ, ◌+◌, ◌*◌, ◌<◌, ◌≤◌, ◌≡◌, length};
ghost use Rattle.tables.specs.Tables.{tally};
ghost use Rattle.tables.specs.Rows.{RowThere};
ghost use Rattle.soundness.specs.Tests.{every, number_right, tally_right};

use tables::TALLY;
use tallies::count_cars;

// Whether a zone's numbers are those of a row.
fn row_right(tallies: &[u32], z: usize, row: &[u32]) -> bool
    requires tally_in_bounds { z * tally + tally ≤ length tallies.now }
    requires row_len { length row.now ≡ tally }
    ensures { result ≡ every (number_right tallies.now z row.now) tally }
{
    let from = z * TALLY;
    &tallies[from..from + TALLY] == row
}

// Whether they are those counted by its row of the rosters and the cars' records.
fn tally_right(cars: &[u32], rosters: &[u8], tallies: &[u32], z: usize) -> bool
    requires row_there { RowThere rosters.now z (length cars.now) }
    requires tally_in_bounds { z * tally + tally ≤ length tallies.now }
    ensures { result ≡ tally_right cars.now rosters.now tallies.now (length cars.now) z }
{
    let mut fresh = [0u32; TALLY];
    count_cars(cars, rosters, z, &mut fresh);
    row_right(tallies, z, &fresh)
}

// Whether each zone's are.
pub fn tallies_right(cars: &[u32], rosters: &[u8], tallies: &[u32], Z: usize) -> bool
    requires by_index { (z : ℕ) → z < Z → RowThere rosters.now z (length cars.now) }
    requires tallies_len { length tallies.now ≡ Z * tally }
    ensures { result ≡ every (tally_right cars.now rosters.now tallies.now (length cars.now)) Z }
{
    (0..Z).all(|z| tally_right(cars, rosters, tallies, z))
}
