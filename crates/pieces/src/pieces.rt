// A piece of the input answered line by line, and what is held at the input's end.
ghost use Rattle.std.specs.Prelude.{◌≤◌, ◌≡◌, [], length, take};
ghost use Rattle.squares.specs.Refusals.{refused_by};
ghost use Rattle.tables.specs.Lent.{given_read, given_open, lent_open};
ghost use Rattle.season.specs.Output.{line_of};
ghost use Rattle.room.specs.Room.{Roomed};
ghost use Rattle.pieces.specs.Pieces.{held_in, holding, fill, finish, roomed, counted};
ghost use Rattle.pieces.specs.Leaves.{Refuses, Lending, GoesOn, Answers, Passes};

use squares::Refusal;
use steps::step;
use tables::{OpenTables, ReadTables, TALLY};

// How many bytes of the piece were read, and how many of the buffer were written.
#[derive(Clone, Copy)]
pub struct Filled {
    pub read: usize,
    pub wrote: usize,
}

// Whether the tables have the lengths of the program's.
fn roomed(town: ReadTables<'_>) -> bool
    ensures { result ≡ roomed (given_read town.entry) }
{
    town.head.len() == 6
        && town.zones.len() == 64
        && town.cars.len() == 64
        && town.spots.len() == 128
        && town.starts.len() == 5462
        && town.entries.len() == 2048
        && town.rosters.len() == 1024
        && town.tallies.len() == 16 * TALLY
}

// Whether the bytes held have their length, and count themselves.
fn counted(held: &[u8]) -> bool
    ensures { result ≡ counted held.now }
{
    held.len() == 82 && held[81] <= 81
}

// What a call asks: 3, 11.
pub fn refuse(town: ReadTables<'_>, held: &[u8], out: &[u8]) -> Result<(), Refusal>
    ensures { Refuses (given_read town.entry) held.now out.now (refused_by result) }
{
    if !roomed(town) || !counted(held) {
        return Err(Refusal::Tables);
    }
    if out.len() < 768 {
        return Err(Refusal::Buffer);
    }
    Ok(())
}

// Whether a line more is taken: some of the piece is left, and any answer has room.
fn goes_on(left: usize, room: usize) -> bool
    ensures { GoesOn left room result }
{
    0 < left && 768 <= room
}

// The first n bytes stay held: the others are 0, and the last says n. So the buffer goes with n, and no part of it.
fn keep_held(held: &mut [u8], n: usize)
    requires { (length held.old ≡ 82) × (n ≤ 81) }
    ensures { held.new ≡ holding (take n held.old) }
{
    held[n..81].fill(0);
    held[81] = n as u8;
}

// A line that has ended is answered; of another nothing is written. Answers how long the text is. The struct is taken apart and made
// again, here and in `replay`: of one that is passed on whole the check does not know what is behind its references afterwards.
fn answer_line(town: OpenTables<'_>, ended: bool, line: &[u8], out: &mut [u8]) -> usize
    requires { Roomed (given_open town) }
    ensures { Answers (lent_open town) ended (line_of line.now) out.old out.new result }
{
    let OpenTables {
        head,
        zones,
        cars,
        spots,
        starts,
        entries,
        rosters,
        tallies,
    } = town;
    if ended {
        let town = OpenTables {
            head,
            zones,
            cars,
            spots,
            starts,
            entries,
            rosters,
            tallies,
        };
        step(town, line, out)
    } else {
        0
    }
}

// Answers line after line of a piece, as far as the buffer goes, and holds what has not ended.
pub fn fill_lines(town: OpenTables<'_>, piece: &[u8], held: &mut [u8], out: &mut [u8]) -> Filled
    requires { Lending (given_open town) held.old out.old }
    ensures { Passes (fill (length out.old) (lent_open town).entry (held_in held.old) piece.now) (lent_open town) piece.now held.new out.old out.new result }
{
    let OpenTables {
        head,
        zones,
        cars,
        spots,
        starts,
        entries,
        rosters,
        tallies,
    } = town;
    let mut at = 0;
    let mut many = held[81] as usize;
    let mut wrote = 0;
    // No `for`: a turn goes on where the line that it takes has ended.
    while goes_on(piece.len() - at, out.len() - wrote) {
        let taken = line::take_line(piece, at, held, many);
        let bytes = taken.bytes;
        let town = OpenTables {
            head: &mut *head,
            zones: &mut *zones,
            cars: &mut *cars,
            spots: &mut *spots,
            starts: &mut *starts,
            entries: &mut *entries,
            rosters: &mut *rosters,
            tallies: &mut *tallies,
        };
        wrote += answer_line(town, taken.whole, &held[..bytes], &mut out[wrote..]);
        at = taken.next;
        many = taken.held;
    }
    keep_held(held, many);
    Filled { read: at, wrote }
}

// Answers what is held, where that is anything: the last line may lack its feed.
pub fn fill_last(town: OpenTables<'_>, held: &mut [u8], out: &mut [u8]) -> Filled
    requires { Lending (given_open town) held.old out.old }
    ensures { Passes (finish (lent_open town).entry (held_in held.old)) (lent_open town) [] held.new out.old out.new result }
{
    let OpenTables {
        head,
        zones,
        cars,
        spots,
        starts,
        entries,
        rosters,
        tallies,
    } = town;
    let many = held[81] as usize;
    let some = many > 0;
    let town = OpenTables {
        head,
        zones,
        cars,
        spots,
        starts,
        entries,
        rosters,
        tallies,
    };
    let wrote = answer_line(town, some, &held[..many], out);
    keep_held(held, 0);
    Filled { read: 0, wrote }
}
