// The eight tables of a town as they are lent to a call: what it may write is lent to be written, the others to be read.
// Five structs and four `seen`, and no parameter or trait for them: which tables a call writes is the type, and each clause names its own.
// Where what it costs to hand one on would be felt, the function is compiled into its caller, and the compiler takes the struct apart.
ghost use Rattle.std.specs.Prelude.{◌≡◌};
ghost use Rattle.tables.specs.Lent.{given_read, given_open, given_zone, given_report, given_leave};

// All to be read.
#[derive(Clone, Copy)]
pub struct ReadTables<'a> {
    pub head: &'a [u32],
    pub zones: &'a [u32],
    pub cars: &'a [u32],
    pub spots: &'a [f32],
    pub starts: &'a [u32],
    pub entries: &'a [u32],
    pub rosters: &'a [u8],
    pub tallies: &'a [u32],
}

// All to be written: an open, a line of the log.
#[derive(Drop)]
pub struct OpenTables<'a> {
    pub head: &'a mut [u32],
    pub zones: &'a mut [u32],
    pub cars: &'a mut [u32],
    pub spots: &'a mut [f32],
    pub starts: &'a mut [u32],
    pub entries: &'a mut [u32],
    pub rosters: &'a mut [u8],
    pub tallies: &'a mut [u32],
}

// What a zone added, moved or taken away writes: its record, and all that is derived from the records.
#[derive(Drop)]
pub struct ZoneTables<'a> {
    pub head: &'a [u32],
    pub zones: &'a mut [u32],
    pub cars: &'a [u32],
    pub spots: &'a [f32],
    pub starts: &'a mut [u32],
    pub entries: &'a mut [u32],
    pub rosters: &'a mut [u8],
    pub tallies: &'a mut [u32],
}

// What a report writes: the car's record and position, and the rosters and tallies.
#[derive(Drop)]
pub struct ReportTables<'a> {
    pub head: &'a [u32],
    pub zones: &'a [u32],
    pub cars: &'a mut [u32],
    pub spots: &'a mut [f32],
    pub starts: &'a [u32],
    pub entries: &'a [u32],
    pub rosters: &'a mut [u8],
    pub tallies: &'a mut [u32],
}

// What a car taken off the map writes: all that a report writes, but its position.
#[derive(Drop)]
pub struct LeaveTables<'a> {
    pub head: &'a [u32],
    pub zones: &'a [u32],
    pub cars: &'a mut [u32],
    pub spots: &'a [f32],
    pub starts: &'a [u32],
    pub entries: &'a [u32],
    pub rosters: &'a mut [u8],
    pub tallies: &'a mut [u32],
}

impl<'a> OpenTables<'a> {
    // To be read.
    pub fn seen(&self) -> ReadTables<'_>
        ensures { given_read result ≡ given_open self.now }
    {
        ReadTables {
            head: &*self.head,
            zones: &*self.zones,
            cars: &*self.cars,
            spots: &*self.spots,
            starts: &*self.starts,
            entries: &*self.entries,
            rosters: &*self.rosters,
            tallies: &*self.tallies,
        }
    }
}

impl<'a> ZoneTables<'a> {
    // To be read.
    pub fn seen(&self) -> ReadTables<'_>
        ensures { given_read result ≡ given_zone self.now }
    {
        ReadTables {
            head: self.head,
            zones: &*self.zones,
            cars: self.cars,
            spots: self.spots,
            starts: &*self.starts,
            entries: &*self.entries,
            rosters: &*self.rosters,
            tallies: &*self.tallies,
        }
    }
}

impl<'a> ReportTables<'a> {
    // To be read.
    pub fn seen(&self) -> ReadTables<'_>
        ensures { given_read result ≡ given_report self.now }
    {
        ReadTables {
            head: self.head,
            zones: self.zones, // a report writes no zone
            cars: &*self.cars,
            spots: &*self.spots,
            starts: self.starts,
            entries: self.entries,
            rosters: &*self.rosters,
            tallies: &*self.tallies,
        }
    }
}

impl<'a> LeaveTables<'a> {
    // To be read.
    pub fn seen(&self) -> ReadTables<'_>
        ensures { given_read result ≡ given_leave self.now }
    {
        ReadTables {
            head: self.head,
            zones: self.zones,
            cars: &*self.cars,
            spots: self.spots, // a car that leaves keeps its position
            starts: self.starts, // a car that leaves moves no start
            entries: self.entries,
            rosters: &*self.rosters,
            tallies: &*self.tallies,
        }
    }
}
