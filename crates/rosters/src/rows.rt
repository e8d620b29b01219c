// A row of the rosters, written.
ghost use Rattle.std.specs.Prelude.{◌+◌, ◌*◌, ◌≤◌, ◌≡◌};
ghost use Rattle.squares.specs.Shape.{most_cars};
ghost use Rattle.tables.specs.Rows.{RowThere};
ghost use Rattle.rosters.specs.Rosters.{row_cleared, stamped};

// Sets a zone's row of so many bytes to 0.
pub fn clear_row(rosters: &mut [u8], z: usize, many: u32)
    requires { RowThere rosters.old z many }
    ensures { rosters.new ≡ row_cleared rosters.old z many }
{
    let from = z * many as usize;
    let end = from + many as usize;
    rosters[from..end].fill(0);
}

// Where car c's byte stands in zone z's row, rows of so many bytes.
fn byte_at(z: u32, many: u32, c: u32) -> usize
    requires { many ≤ most_cars }
    ensures { result ≡ z * many + c }
{
    z as usize * many as usize + c as usize
}

// Sets car c's byte in the row of each zone of a list, rows of so many bytes.
pub fn stamp_rows(rosters: &mut [u8], zones: &[u32], many: u32, c: u32, v: u8)
    requires { many ≤ most_cars }
    ensures { rosters.new ≡ stamped rosters.old zones.now many c v }
{
    for z in zones {
        order::store(rosters, byte_at(*z, many, c), v);
    }
}
