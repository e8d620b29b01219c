// A reader holds a line and its place in it, and hands out one field after another by moving on.
ghost use Rattle.std.specs.Prelude.{◌≡◌};
ghost use Rattle.line.specs.Fields.{Moves, field_ends};

use crate::fields::field_end;

#[derive(Drop)]
pub struct Reader<'a> {
    pub line: &'a [u8],
    pub at: usize,
}

impl<'a> Reader<'a> {
    // A reader at the line's start.
    pub fn new(line: &'a [u8]) -> Reader<'a>
        ensures { (result.line ≡ line.entry) × (result.at ≡ 0) }
    {
        Reader { line, at: 0 }
    }

    // Where the field at the reader's place ends. The reader moves on to the place after it.
    pub fn next_end(&mut self) -> usize
        ensures { Moves self.old self.new result }
    {
        let end = field_end(self.line, self.at);
        self.at = end + 1;
        end
    }
}

// The ends of a line's first seven fields: as many as the longest record has, and one more.
// Whoever calls this needs no reader of its own.
pub fn field_ends(line: &[u8]) -> [usize; 7]
    ensures { result ≡ field_ends 7 line.now 0 }
{
    let mut r = Reader::new(line);
    let mut ends = [0; 7];
    for end in &mut ends {
        *end = r.next_end();
    }
    ends
}
