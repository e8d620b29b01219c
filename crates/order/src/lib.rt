// Numbers in order at the front of a lent buffer.
#![tactic(auto)]

ghost use Rattle.std.specs.Prelude.{◌≤◌, ◌≡◌, ◌∷◌, length, set, take};
ghost use Rattle.order.specs.Buffer.{Ranked, Put, Lower, ends_below};

// A number as an index. By `as`: the library has no `usize::from` of a u32, nor `try_from`.
pub fn wide(x: u32) -> usize
    ensures { result ≡ x }
{
    x as usize
}

// Whether the last number is below x, if there is one.
pub fn ends_below(list: &[u32], x: usize) -> bool
    ensures { result ≡ ends_below list.now x (length list.now) }
{
    match list.last() {
        Some(y) => wide(*y) < x,
        None => true,
    }
}

// How many numbers at the front of `list` are below x.
pub fn rank_of(list: &[u32], x: u32) -> usize
    ensures { Ranked x list.now result }
{
    list.iter().take_while(|y| **y < x).count()
}

// Whether the number at i is left of those up to n, and below the one at j, where that is left of those up to an end. One list
// with its bounds, since both parts are of the same list.
pub fn is_lower(list: &[u32], i: usize, n: usize, j: usize, end: usize) -> bool
    requires n_in_bounds { n ≤ length list.now }
    requires end_in_bounds { end ≤ length list.now }
    ensures { Lower list.now i n j end result }
{
    if n <= i {
        return false;
    }
    if end <= j {
        return true;
    }
    list[i] < list[j]
}

// x goes in at the front of `part`, each number moves up a place, and the last falls out.
pub fn slide(part: &mut [u32], x: u32)
    ensures { part.new ≡ take (length part.old) (x ∷ part.old) }
{
    let mut next = x;
    for i in 0..part.len() {
        let here = part[i];
        part[i] = next;
        next = here;
    }
}

// x is stored at place n where the buffer has that place.
pub fn store<T: Copy>(buffer: &mut [T], n: usize, x: T)
    ensures { buffer.new ≡ set buffer.old n x }
{
    if n < buffer.len() {
        buffer[n] = x;
    }
}

// x is put in its place among the first n numbers, unless it is there or the buffer is full. The buffer and n, and no part of it:
// the place behind the first n is written too.
// Answers how many there are now.
pub fn put(buffer: &mut [u32], n: usize, x: u32) -> usize
    requires { n ≤ length buffer.old }
    ensures { Put buffer.old buffer.new n x result }
{
    if n == buffer.len() {
        return n;
    }
    let at = rank_of(&buffer[..n], x);
    if at < n {
        if buffer[at] == x {
            return n;
        }
    }
    let end = n + 1;
    slide(&mut buffer[at..end], x);
    end
}
