// A piece of the log, and its end.
// The struct of the tables is taken apart and made again: of one that is passed on whole the check does not know what is behind its
// references afterwards.
ghost use Rattle.std.specs.Prelude.{[], length};
ghost use Rattle.tables.specs.Lent.{lent_open};
ghost use Rattle.pieces.specs.Pieces.{held_in, fill, finish, Fills};

use pieces::{Filled, fill_last, fill_lines, refuse};
use squares::Refusal;
use tables::OpenTables;

// Answers a piece of the input as far as the buffer goes. Answers how much of it was read, and how much was written.
pub fn answer_piece(
    town: OpenTables<'_>,
    piece: &[u8],
    held: &mut [u8],
    out: &mut [u8],
) -> Result<Filled, Refusal>
    ensures { Fills (fill (length out.old) (lent_open town).entry (held_in held.old) piece.now) (lent_open town) piece.now held.old held.new out.old out.new result }
{
    refuse(town.seen(), held, out)?;
    let OpenTables {
        head,
        zones,
        cars,
        spots,
        starts,
        entries,
        rosters,
        tallies,
    } = town;
    let town = OpenTables {
        head,
        zones,
        cars,
        spots,
        starts,
        entries,
        rosters,
        tallies,
    };
    let filled = fill_lines(town, piece, held, out);
    Ok(filled)
}

// Answers the last line at the input's end.
pub fn answer_end(town: OpenTables<'_>, held: &mut [u8], out: &mut [u8]) -> Result<Filled, Refusal>
    ensures { Fills (finish (lent_open town).entry (held_in held.old)) (lent_open town) [] held.old held.new out.old out.new result }
{
    refuse(town.seen(), held, out)?;
    let OpenTables {
        head,
        zones,
        cars,
        spots,
        starts,
        entries,
        rosters,
        tallies,
    } = town;
    let town = OpenTables {
        head,
        zones,
        cars,
        spots,
        starts,
        entries,
        rosters,
        tallies,
    };
    let filled = fill_last(town, held, out);
    Ok(filled)
}
