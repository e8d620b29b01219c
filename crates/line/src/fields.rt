// The fields of a line.
ghost use Rattle.std.specs.Prelude.{◌≡◌};
ghost use Rattle.line.specs.Fields.{field_end};

use crate::scan::end_of;

// Where the field that starts at a place ends: at its tab, or where the line does.
// Past the line's end there is none. The end is then before the place.
#[tactic(auto, unfolding(crate::specs::Fields::field_end))]
pub fn field_end(line: &[u8], at: usize) -> usize
    ensures { result ≡ field_end line.now at }
{
    if line.len() < at {
        return line.len();
    }
    end_of(line, at, b'\t')
}
