// The record that a line means.
ghost use Rattle.std.specs.Prelude.{◌≡◌, ◌∷◌};
ghost use Rattle.line.specs.Grammar.{record_of, recorded, form, values, meaning};
ghost use Rattle.line.specs.Fields.{field_ends, rest};

use crate::numbers::read_value;
use crate::reader::field_ends;

// A line that is no record is Bad: a case, and no Option, since every line has a meaning (`meaning`), and this one an answer of its own.
// A coordinate is a float's bits.
#[derive(Clone, Copy)]
pub enum Record {
    Bad,
    // k, P, Q
    Open(u32, u32, u32),
    // zone, a, b, w, h
    Add(u32, u32, u32, u32, u32),
    // zone
    Remove(u32),
    // car, x, y
    Report(u32, u32, u32),
    // car
    Leave(u32),
    // x, y
    Search(u32, u32),
    // zone
    Roster(u32),
}

// The bases of the fields after a record's letter.
#[tactic(auto, unfolding(crate::specs::Grammar::form))]
fn form_of(letter: u8) -> &'static [u64]
    ensures { result.now ≡ form letter }
{
    match letter {
        b'M' => &[10, 10, 10],
        b'A' => &[10, 10, 10, 10, 10],
        b'P' => &[10, 16, 16],
        b'S' => &[16, 16],
        b'D' | b'L' | b'R' => &[10],
        _ => &[],
    }
}

// The record with a letter and its values.
#[tactic(auto, unfolding(crate::specs::Grammar::record_of))]
fn record_of(letter: u8, v: [u32; 5]) -> Record
    ensures { result ≡ record_of letter v }
{
    let [first, second, third, fourth, fifth] = v;
    match letter {
        b'M' => Record::Open(first, second, third),
        b'A' => Record::Add(first, second, third, fourth, fifth),
        b'D' => Record::Remove(first),
        b'P' => Record::Report(first, second, third),
        b'L' => Record::Leave(first),
        b'S' => Record::Search(first, second),
        b'R' => Record::Roster(first),
        _ => Record::Bad,
    }
}

// The record with a letter and the fields from place 2 of the line on, which have these ends after the letter's.
fn read_record(line: &[u8], letter: u8, ends: [usize; 7]) -> Record
    requires { ends ≡ 1 ∷ field_ends 6 line.now 2 }
    ensures { result ≡ recorded letter (values (form letter) (rest line.now 2)) }
{
    let bases = form_of(letter);
    let mut v = [0; 5];
    let mut at = 2;
    for (i, base) in bases.iter().enumerate() {
        let end = ends[i + 1];
        if end < at {
            return Record::Bad;
        }
        let Some(n) = read_value(&line[at..end], *base) else {
            return Record::Bad;
        };
        v[i] = n as u32;
        at = end + 1;
    }
    if at <= ends[bases.len() + 1] {
        return Record::Bad;
    }
    record_of(letter, v)
}

// What a line means, without its feed.
pub fn parse(line: &[u8]) -> Record
    ensures { result ≡ meaning line.now }
{
    if 80 < line.len() {
        return Record::Bad;
    }
    let ends = field_ends(line);
    if ends[0] != 1 {
        return Record::Bad;
    }
    read_record(line, line[0], ends)
}
