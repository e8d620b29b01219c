// A row of the rosters, read.
ghost use Rattle.std.specs.Prelude.{◌+◌, ◌*◌, ◌≤◌};
ghost use Rattle.order.specs.Order.{Wrote};
ghost use Rattle.tables.specs.Rows.{row, Adds, RowThere};

// Stores car c where its byte is not 0. Answers the next place.
fn add_marked(byte: u8, c: u32, out: &mut [u32], next: usize) -> usize
    requires { next ≤ 1024 }
    ensures { Adds byte c out.old out.new next result }
{
    if byte == 0 {
        return next;
    }
    order::store(out, next, c);
    next + 1
}

// Stores the cars of a zone's row of so many bytes, lowest first, as far as the buffer goes.
// Answers how many they are.
pub fn list_cars(rosters: &[u8], z: usize, many: u32, out: &mut [u32]) -> usize
    requires { RowThere rosters.now z many }
    ensures { Wrote out.old out.new 0 result (row rosters.now (z * many) many) }
{
    let from = z * many as usize;
    let mut next = 0usize;
    for c in 0..many {
        next = add_marked(rosters[from + c as usize], c, out, next);
    }
    next
}
