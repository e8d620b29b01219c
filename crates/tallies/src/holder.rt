// The team that holds a zone, worked out of the zone's counts.
ghost use Rattle.std.specs.Prelude.{◌≡◌, ℕ, ◌+◌, ◌<◌, ◌≤◌, length, slice_index};
ghost use Rattle.model.specs.Teams.{lead};
ghost use Rattle.tallies.specs.Holder.{lead_of, Foremost};

// A team that has so many cars and more than each other looked at, or 0 where two are level: 0 and no Option, since
// `Foremost` and the tallies say nobody by 0.
#[derive(Clone, Copy)]
struct Lead {
    cars: u32,
    team: u32,
}

// A team alone, by a zone's row of the tallies.
fn lead_of(row: &[u32], g: u32) -> Lead
    requires { g + 1 < length row.now }
    ensures { result ≡ lead_of row.now g }
{
    Lead {
        cars: row[g as usize + 1],
        team: g,
    }
}

// Of two leads of different teams the one with more cars; where they are level, nobody's.
fn ahead(a: Lead, b: Lead) -> Lead
    ensures { Foremost a b result }
{
    if a.cars < b.cars {
        return b;
    }
    if b.cars < a.cars {
        return a;
    }
    Lead {
        cars: a.cars,
        team: 0,
    }
}

// The team that holds a zone, by the zone's row of the tallies: its count, its eight counts by team, its holder. One look at each of the seven.
pub fn holder_in(row: &[u32]) -> u32
    requires { 9 ≤ length row.now }
    ensures { result ≡ lead (λ (g : ℕ). slice_index row.now (g + 1)) }
{
    let low = ahead(
        ahead(lead_of(row, 1), lead_of(row, 2)),
        ahead(lead_of(row, 3), lead_of(row, 4)),
    );
    let high = ahead(ahead(lead_of(row, 5), lead_of(row, 6)), lead_of(row, 7));
    let first = ahead(low, high);
    first.team
}
