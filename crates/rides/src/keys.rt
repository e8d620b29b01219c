// The keys that are exchanged.

// Those that are dropped and those that are taken up; and the starts, of which only those from place n on are trusted.
#[derive(Clone, Copy)]
pub struct Keys<'a> {
    pub starts: &'a [u32],
    pub n: usize,
    pub gone: &'a [u32],
    pub come: &'a [u32],
}
