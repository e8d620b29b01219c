// What the calls answer where they are not refused.

// How many squares the new zone's cut has, and how many cars are inside.
#[derive(Clone, Copy)]
pub struct Added {
    pub squares: usize,
    pub cars: usize,
}

// How many squares were dropped and how many taken up, and how many cars were written as entered and as left.
#[derive(Clone, Copy)]
pub struct Ridden {
    pub dropped: usize,
    pub taken: usize,
    pub entered: usize,
    pub left: usize,
}

// How many squares were looked into, and how many zones were written: those of a cell, as left or as found.
#[derive(Clone, Copy)]
pub struct Looked {
    pub squares: u32,
    pub zones: usize,
}

// How many squares were looked into, and how many zones were written as entered and as left.
#[derive(Clone, Copy)]
pub struct Crossed {
    pub squares: u32,
    pub entered: usize,
    pub left: usize,
}

// Whether a zone holds a position, and how many levels were looked at.
#[derive(Clone, Copy)]
pub struct Scoring {
    pub held: bool,
    pub levels: u32,
}

// Eight names and no array: a clause names each team's number (DECISIONS 63).
// How many cars of each team are in a zone, and the team that holds it, 0 for nobody.
#[derive(Clone, Copy)]
pub struct Standing {
    pub team0: u32,
    pub team1: u32,
    pub team2: u32,
    pub team3: u32,
    pub team4: u32,
    pub team5: u32,
    pub team6: u32,
    pub team7: u32,
    pub holder: u32,
}
