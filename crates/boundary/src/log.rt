// The log: a piece of it, and its end.
ghost use Rattle.std.specs.Prelude.{[], length};
ghost use Rattle.tables.specs.Lent.{lent, as_written};
ghost use Rattle.pieces.specs.Pieces.{held_in, fill, finish};
ghost use Rattle.boundary.specs.Promises.{filling_says, Said, Logs};

use pieces::Filled;
use squares::Refusal;
use tables::OpenTables;

// What a call on the log answers is told: 0 and two numbers, or the number of its refusal and 0 twice.
fn tell_filled(answer: Result<Filled, Refusal>, values: &mut [usize]) -> u32
    ensures { Said (filling_says answer) values.old values.new result }
{
    let (number, read, wrote) = match answer {
        Ok(filled) => (0, filled.read, filled.wrote),
        Err(r) => (r.number(), 0, 0),
    };
    order::store(values, 0, read);
    order::store(values, 1, wrote);
    number
}

// Two values: how much of the piece was read, how much of the buffer was written.
#[unsafe(no_mangle)]
pub extern "C" fn unwadegiro_log(
    head: &mut [u32],
    zones: &mut [u32],
    cars: &mut [u32],
    spots: &mut [f32],
    starts: &mut [u32],
    entries: &mut [u32],
    rosters: &mut [u8],
    tallies: &mut [u32],
    piece: &[u8],
    held: &mut [u8],
    out: &mut [u8],
    values: &mut [usize],
) -> u32
    ensures { Logs (fill (length out.old) (lent (as_written head) (as_written zones) (as_written cars) (as_written spots) (as_written starts) (as_written entries) (as_written rosters) (as_written tallies)).entry (held_in held.old) piece.now) (lent (as_written head) (as_written zones) (as_written cars) (as_written spots) (as_written starts) (as_written entries) (as_written rosters) (as_written tallies)) piece.now held.old held.new out.old out.new values.old values.new result }
{
    let town = OpenTables {
        head,
        zones,
        cars,
        spots,
        starts,
        entries,
        rosters,
        tallies,
    };
    tell_filled(replay::answer_piece(town, piece, held, out), values)
}

// Two values: 0, how much of the buffer was written.
#[unsafe(no_mangle)]
pub extern "C" fn unwadegiro_log_end(
    head: &mut [u32],
    zones: &mut [u32],
    cars: &mut [u32],
    spots: &mut [f32],
    starts: &mut [u32],
    entries: &mut [u32],
    rosters: &mut [u8],
    tallies: &mut [u32],
    held: &mut [u8],
    out: &mut [u8],
    values: &mut [usize],
) -> u32
    ensures { Logs (finish (lent (as_written head) (as_written zones) (as_written cars) (as_written spots) (as_written starts) (as_written entries) (as_written rosters) (as_written tallies)).entry (held_in held.old)) (lent (as_written head) (as_written zones) (as_written cars) (as_written spots) (as_written starts) (as_written entries) (as_written rosters) (as_written tallies)) [] held.old held.new out.old out.new values.old values.new result }
{
    let town = OpenTables {
        head,
        zones,
        cars,
        spots,
        starts,
        entries,
        rosters,
        tallies,
    };
    tell_filled(replay::answer_end(town, held, out), values)
}
