// The eight tables, lent on as each call takes them.
use tables::{LeaveTables, OpenTables, ReportTables, ZoneTables};

// A struct of the eight tables, taken apart and lent on as another.
macro_rules! lend {
    ($town:expr, $from:ident as $to:ident) => {{
        let $from { head, zones, cars, spots, starts, entries, rosters, tallies } = $town;
        $to { head, zones, cars, spots, starts, entries, rosters, tallies }
    }};
}

pub(crate) use lend;

// Functions, since the borrow checker does not cover the macro at a call.
pub fn for_open<'a>(town: &'a mut OpenTables<'_>) -> OpenTables<'a> {
    lend!(town, OpenTables as OpenTables)
}

pub fn for_zone<'a>(town: &'a mut OpenTables<'_>) -> ZoneTables<'a> {
    lend!(town, OpenTables as ZoneTables)
}

pub fn for_report<'a>(town: &'a mut OpenTables<'_>) -> ReportTables<'a> {
    lend!(town, OpenTables as ReportTables)
}

pub fn for_leave<'a>(town: &'a mut OpenTables<'_>) -> LeaveTables<'a> {
    lend!(town, OpenTables as LeaveTables)
}
