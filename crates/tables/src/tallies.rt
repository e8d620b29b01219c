// A zone's tally, read.
ghost use Rattle.std.specs.Prelude.{◌≡◌, ◌+◌, ◌*◌, ◌<◌, length, slice_index};
ghost use Rattle.tables.specs.Tables.{tally};
ghost use Rattle.tables.specs.Slots.{standing_in};

use model::Standing;

// How many numbers a zone has: its count, eight counts by team, its holder.
pub const TALLY: usize = 10;

// How many cars are in zone z, as stored.
pub fn count_in(tallies: &[u32], z: usize) -> u32
    requires { z * tally < length tallies.now }
    ensures { result ≡ slice_index tallies.now (z * tally) }
{
    tallies[z * TALLY]
}

// How many cars of each team are in zone z, and its holder, as stored.
pub fn standing_in(tallies: &[u32], z: usize) -> Standing
    requires { z * tally + 9 < length tallies.now }
    ensures { result ≡ standing_in tallies.now z }
{
    let at = z * TALLY;
    Standing {
        team0: tallies[at + 1],
        team1: tallies[at + 2],
        team2: tallies[at + 3],
        team3: tallies[at + 4],
        team4: tallies[at + 5],
        team5: tallies[at + 6],
        team6: tallies[at + 7],
        team7: tallies[at + 8],
        holder: tallies[at + 9],
    }
}
