// A field as a number: a decimal, or a coordinate's hex digits.
ghost use Rattle.std.specs.Prelude.{◌≡◌, ◌<◌, SomeIff};
ghost use Rattle.line.specs.Grammar.{digit_of, numeral, decimal, coordinate, value};
ghost use Rattle.line.specs.Leaves.{Short};

// A byte's value as a digit, where it is one.
#[tactic(auto, unfolding(crate::specs::Grammar::digit_of))]
fn digit(byte: u8) -> Option<u64>
    ensures { SomeIff result (digit_of byte < 16) (digit_of byte) }
{
    match byte {
        b'0'..=b'9' => Some(u64::from(byte - b'0')),
        b'A'..=b'F' => Some(u64::from(byte - b'A') + 10),
        _ => None,
    }
}

// The number that the digits of a field write in a base.
fn read_digits(field: &[u8], base: u64) -> Option<u64>
    requires { Short field.now base }
    ensures { result ≡ numeral base 0 field.now }
{
    let mut n = 0;
    for byte in field {
        let d = digit(*byte)?;
        if base <= d {
            return None;
        }
        n = n * base + d;
    }
    Some(n)
}

#[tactic(auto, using(crate::proofs::Decimals::zero_alone), unfolding(crate::specs::Grammar::decimal))]
fn read_decimal(field: &[u8]) -> Option<u64>
    ensures { result ≡ decimal field.now }
{
    if field.is_empty() || 10 < field.len() {
        return None;
    }
    if field[0] == b'0' {
        if field.len() == 1 {
            return Some(0);
        }
        return None;
    }
    let n = read_digits(field, 10)?;
    if 4294967295 < n {
        return None;
    }
    Some(n)
}

#[tactic(auto, unfolding(crate::specs::Grammar::coordinate))]
fn read_coordinate(field: &[u8]) -> Option<u64>
    ensures { result ≡ coordinate field.now }
{
    if field.len() != 8 {
        return None;
    }
    read_digits(field, 16)
}

// A test of the base, and no closure: as `value` says it.
// A field in base 10 is a decimal, one in base 16 a coordinate.
pub fn read_value(field: &[u8], base: u64) -> Option<u64>
    ensures { result ≡ value base field.now }
{
    if base == 10 {
        return read_decimal(field);
    }
    read_coordinate(field)
}
