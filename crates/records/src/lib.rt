// One function for each record of the log.
#![tactic(auto)]

mod changes; // changes.rt: the records that change the tables
mod looks; // looks.rt: the records that only read them

pub use changes::{add_record, leave_record, open_record, remove_record, report_record};
pub use looks::{roster_record, search_record};
