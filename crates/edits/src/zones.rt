// A zone's record, written and cleared.
// It stands flat in a table, as C lends it, so it is written number by number, as `with_zone` does.
ghost use Rattle.std.specs.Prelude.{◌+◌, ◌*◌, ◌≤◌, ◌≡◌, length};
ghost use Rattle.tables.specs.Steps.{with_zone, without_zone};

use squares::Rect;

// Zone z's record is the rectangle.
pub fn write_zone(zones: &mut [u32], z: usize, r: Rect)
    requires { 4 * z + 4 ≤ length zones.old }
    ensures { zones.new ≡ with_zone zones.old z r }
{
    let at = 4 * z;
    zones[at] = r.a;
    zones[at + 1] = r.b;
    zones[at + 2] = r.w;
    zones[at + 3] = r.h;
}

// Zone z stands no more.
pub fn clear_zone(zones: &mut [u32], z: usize)
    requires { 4 * z + 4 ≤ length zones.old }
    ensures { zones.new ≡ without_zone zones.old z }
{
    zones[4 * z + 2] = 0;
}
