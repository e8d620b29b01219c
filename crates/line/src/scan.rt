// Where a part of a list of bytes ends.
ghost use Rattle.std.specs.Prelude.{◌≤◌, length};
ghost use Rattle.line.specs.Leaves.{Ends};

// The first place from `at` on that has the mark, or the end of the bytes.
pub fn end_of(bytes: &[u8], at: usize, mark: u8) -> usize
    requires { at ≤ length bytes.now }
    ensures { Ends mark bytes.now at result }
{
    match bytes[at..].iter().position(|byte| *byte == mark) {
        Some(n) => at + n,
        None => bytes.len(),
    }
}
