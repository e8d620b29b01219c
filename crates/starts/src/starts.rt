// The starts: for each place, how many of the entries lie before it.
ghost use Rattle.std.specs.Prelude.{◌≡◌, ◌≤◌, length};
ghost use Rattle.squares.specs.Shape.{most_entries};
ghost use Rattle.starts.specs.Starts.{ranks, Reaches, Fills};

// The place after a key's own, or so many where that is less.
pub fn place_after(key: u32, many: usize) -> usize
    ensures { Reaches key many result }
{
    let end = (key / 256) as usize + 1;
    end.min(many)
}

// Sets the numbers from place p up to an end, where that lies further on. Answers up to where they are set.
fn fill_to(list: &mut [u32], p: usize, end: usize, v: u32) -> usize
    requires p_in_bounds { p ≤ length list.old }
    requires end_in_bounds { end ≤ length list.old }
    ensures { Fills list.old list.new p end v result }
{
    if end <= p {
        return p;
    }
    list[p..end].fill(v);
    end
}

// Sets the start of each place: how many keys at the front of the entries are below the place's first, 256 a place.
// One pass over the entries, each of which sets the places up to its own that are not set yet.
pub fn set_starts(starts: &mut [u32], entries: &[u32])
    requires starts_len_bound { length starts.old ≤ 87382 }
    requires entries_len_bound { length entries.now ≤ most_entries }
    ensures { starts.new ≡ ranks entries.now (length starts.old) }
{
    let many = starts.len();
    let mut p = 0;
    for (i, key) in entries.iter().enumerate() {
        if p == many {
            return;
        }
        let end = place_after(*key, many);
        p = fill_to(starts, p, end, i as u32);
    }
    fill_to(starts, p, many, entries.len() as u32);
}
