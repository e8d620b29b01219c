// A number returned, and values stored in a lent array as far as it goes.
ghost use Rattle.std.specs.Prelude.{◌≡◌, ◌∷◌, [], map, replicate};
ghost use Rattle.std.proofs.lemmas.List.Edits.{sets};
ghost use Rattle.squares.specs.Refusals.{number_of};
ghost use Rattle.values.specs.Promises.{capped, Tells};

use squares::Refusal;

// A number in 32 bits, the largest where it is too large.
fn cap(n: usize) -> u32
    ensures { result ≡ capped n }
{
    u32::try_from(n).unwrap_or(u32::MAX)
}

// The values go to the front of the array.
fn store_all(told: &[usize], values: &mut [u32])
    ensures { values.new ≡ sets values.old 0 (map capped told.now) }
{
    for (i, n) in told.iter().enumerate() {
        order::store(values, i, cap(*n));
    }
}

// A number is returned, and the values are stored.
pub fn tell_all<const N: usize>(r: u32, told: [usize; N], values: &mut [u32]) -> u32
    ensures { Tells (r ∷ told.entry) values.old values.new result }
{
    store_all(&told, values);
    r
}

// 0 is returned, and the values are stored.
pub fn tell_values<const N: usize>(told: [usize; N], values: &mut [u32]) -> u32
    ensures { Tells (0 ∷ told.entry) values.old values.new result }
{
    tell_all(0, told, values)
}

// The number of a refusal is returned, and each of N values is 0.
pub fn tell_refusal<const N: usize>(r: Refusal, values: &mut [u32]) -> u32
    ensures { Tells (number_of r ∷ replicate N 0) values.old values.new result }
{
    for i in 0..N {
        order::store(values, i, 0);
    }
    r.number()
}

// Two coordinates go to the front of an array, their bits unchanged.
pub fn point_two(x: f32, y: f32, position: &mut [f32])
    ensures { position.new ≡ sets position.old 0 (x ∷ y ∷ []) }
{
    order::store(position, 0, x);
    order::store(position, 1, y);
}
