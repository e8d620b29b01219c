// The records that only read the tables: S and R.
ghost use Rattle.tables.specs.Lent.{given_read, lent_read};
ghost use Rattle.season.specs.Output.{call_of};
ghost use Rattle.room.specs.Room.{Roomed};
ghost use Rattle.records.specs.Replies.{Replies};
ghost use Rattle.line.specs.declared.records.Record.TheVariants.{Search, Roster};

use room::{places_in, position_of, tame_roster};
use tables::ReadTables;
use texts::{write_roster, write_searched};

// S: the zones that hold a position.
// x and y are two patterns of bits, of which `position_of` makes the position.
pub fn search_record(town: ReadTables<'_>, x: u32, y: u32, out: &mut [u8]) -> usize
    requires { Roomed (given_read town) }
    ensures { Replies (lent_read town) (call_of (Search x y)) out.old out.new result }
{
    let many = places_in(town.head, town.starts);
    let starts = &town.starts[..many];
    let mut found = [0u32; 16];
    let answer = readings::search_zones(
        ReadTables { starts, ..town },
        position_of(x, y),
        &mut found,
    );
    write_searched(answer, &found, out)
}

// R: the cars of a zone.
pub fn roster_record(town: ReadTables<'_>, zone: u32, out: &mut [u8]) -> usize
    requires { Roomed (given_read town) }
    ensures { Replies (lent_read town) (call_of (Roster zone)) out.old out.new result }
{
    let many = places_in(town.head, town.starts);
    let starts = &town.starts[..many];
    let mut inside = [0u32; 64];
    let answer = readings::roster_of_zone(ReadTables { starts, ..town }, zone, &mut inside);
    write_roster(tame_roster(answer), &inside, out)
}
