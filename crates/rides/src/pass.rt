// Keys exchanged for others in the entries: block by block, each of which moves up or down.
ghost use Rattle.std.specs.Prelude.{◌<◌, ◌≡◌, true, false};
ghost use Rattle.rides.specs.Blocks.{SwapRoom, Swaps};
ghost use Rattle.rides.specs.Pass.{longer, rise, Run, StepRoom, Steps};

use crate::keys::Keys;
use crate::lift::lift;
use crate::sink::sink;
use entries::find_key;

// Whether at place x of both lists the number taken up is the lower one. A list that has ended counts as higher.
#[tactic(auto, unfolding(crate::specs::Pass::rise))]
fn rises(gone: &[u32], come: &[u32], x: usize) -> bool
    ensures { result ≡ rise gone.now come.now x }
{
    x < come.len() && (gone.len() <= x || come[x] < gone[x])
}

// Where a block that begins at m ends: the first place after m, of so many, that does not go the same way.
fn run_end(gone: &[u32], come: &[u32], m: usize, most: usize, up: bool) -> usize
    requires m_lt_most { m < most }
    requires most_value { most ≡ longer gone.now come.now }
    requires up_value { up ≡ rise gone.now come.now m }
    ensures { Run gone.now come.now m result up }
{
    for x in m + 1..most {
        if rises(gone, come, x) != up {
            return x;
        }
    }
    most
}

// A block's bounds go one by one, as in `lift`. Which way it goes is a test, and no closure: each way is one call.
// Exchanges the keys of a block that moves up. Answers where the block after it begins. At a key that is not there it stops.
fn up_block(keys: Keys, entries: &mut [u32], from: usize, u: usize, m: usize, next: usize) -> usize
    requires { StepRoom keys.gone.now keys.come.now entries.old from u m next true }
    ensures { let k = keys.entry in Steps k.starts.now k.n k.gone.now k.come.now entries.old entries.new from u m next result }
{
    if keys.gone.len() < next {
        lift(keys, entries, from, u, m, keys.gone.len(), next);
        return u;
    }
    let key = keys.gone[next - 1];
    let at = from + find_key(keys.starts, keys.n, &entries[from..u], from, key);
    if at == u {
        return u;
    }
    lift(keys, entries, from, at + 1, m, next, next);
    at + 1
}

// Exchanges the keys of a block that moves down. Answers where the block after it begins.
fn down_block(
    keys: Keys,
    entries: &mut [u32],
    from: usize,
    u: usize,
    m: usize,
    next: usize,
) -> usize
    requires { StepRoom keys.gone.now keys.come.now entries.old from u m next false }
    ensures { let k = keys.entry in Steps k.starts.now k.n k.gone.now k.come.now entries.old entries.new from u m next result }
{
    if keys.come.len() < next {
        sink(keys, entries, from, u, m, next, keys.come.len());
        return u;
    }
    let key = keys.come[next - 1];
    let end = from + find_key(keys.starts, keys.n, &entries[from..u], from, key);
    sink(keys, entries, from, end, m, next, next);
    end
}

// Exchanges the keys of a block, one way or the other. Answers where the block after it begins.
fn swap_block(
    keys: Keys,
    entries: &mut [u32],
    from: usize,
    u: usize,
    m: usize,
    next: usize,
    up: bool,
) -> usize
    requires { StepRoom keys.gone.now keys.come.now entries.old from u m next up }
    ensures { let k = keys.entry in Steps k.starts.now k.n k.gone.now k.come.now entries.old entries.new from u m next result }
{
    if up {
        return up_block(keys, entries, from, u, m, next);
    }
    down_block(keys, entries, from, u, m, next)
}

// Takes the keys that are dropped out of the first u entries and puts those that are taken up in.
// What lies before the first of them stays, and so does what lies after the last where they are as many.
pub fn swap_keys(keys: Keys, entries: &mut [u32], u: usize)
    requires { SwapRoom keys.gone.now keys.come.now entries.old u }
    ensures { let k = keys.entry in Swaps k.starts.now k.n k.gone.now k.come.now u entries.old entries.new }
{
    let most = keys.gone.len().max(keys.come.len());
    let mut from = 0;
    let mut m = 0;
    // A `while`: each turn goes on by a block, whose end it finds itself, and no range has such steps.
    while m < most {
        let up = rises(keys.gone, keys.come, m);
        let next = run_end(keys.gone, keys.come, m, most, up);
        from = swap_block(keys, entries, from, u, m, next, up);
        m = next;
    }
}
