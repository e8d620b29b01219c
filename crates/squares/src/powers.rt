// Powers of two and four, bits interleaved and taken apart.
ghost use Rattle.std.specs.Prelude.{◌^◌, ◌<◌, ◌≤◌};
ghost use Rattle.squares.specs.Shape.{largest_k};
ghost use Rattle.squares.specs.Squares.{interleave, evens};
ghost use Rattle.squares.specs.Leaves.{Positive, Below};
ghost use Rattle.squares.specs.Spread.{spread};

pub fn two_to(j: u32) -> u32
    requires { j ≤ largest_k }
    ensures { Positive (2 ^ j) 32 result }
{
    1u32 << j
}

pub fn four_to(i: u32) -> u32
    requires { i ≤ 6 }
    ensures { Positive (4 ^ i) 4096 result }
{
    1u32 << (2 * i)
}

// A number of five bits, each bit with a 0 above it, from a table of the 32.
fn spread(a: u32) -> u32
    requires { a < 32 }
    ensures { Below (spread a) 1024 result }
{
    match a % 32 {
        0 => 0,
        1 => 1,
        2 => 4,
        3 => 5,
        4 => 16,
        5 => 17,
        6 => 20,
        7 => 21,
        8 => 64,
        9 => 65,
        10 => 68,
        11 => 69,
        12 => 80,
        13 => 81,
        14 => 84,
        15 => 85,
        16 => 256,
        17 => 257,
        18 => 260,
        19 => 261,
        20 => 272,
        21 => 273,
        22 => 276,
        23 => 277,
        24 => 320,
        25 => 321,
        26 => 324,
        27 => 325,
        28 => 336,
        29 => 337,
        30 => 340,
        31 => 341,
        _ => 0,
    }
}

// The bits of a and b, five of each, b's bit above a's of the same rank.
pub fn interleaved(a: u32, b: u32) -> u32
    requires { (a < 32) × (b < 32) }
    ensures { Below (interleave 5 a b) 1024 result }
{
    spread(a) + 2 * spread(b)
}

// Every other bit of n from the lowest on, i of them.
pub fn evens_of(i: u32, n: u32) -> u32
    requires { i ≤ largest_k }
    ensures { Below (evens i n) (2 ^ i) result }
{
    let mut r = 0u32;
    let mut place = 1u32;
    let mut rest = n;
    for _ in 0..i {
        r += rest % 2 * place;
        place *= 2;
        rest /= 4;
    }
    r
}
