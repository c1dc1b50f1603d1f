//! The reports on a history: the state after it as lines and as JSON, why an entry was answered as it was,
//! and the line of a trial. `tell` reads a scenario with its history from bytes, checks it, and gives the
//! report that is asked for with its exit status.
#![tactic(auto)]

mod history_facts;
mod input;
mod json_report;
pub mod law;
mod lines;
mod reason;
mod reasons;
pub mod report;
pub mod report_law;
mod rows;
mod table;
mod tally;
mod trial;
mod verdict_lines;
mod why;

pub use history_facts::Facts;
pub use json_report::json_text;
pub use kernel_tables::standing::{LiveTask, MappedObject};
pub use report::{Judging, Report, tell, verdict_report};
pub use rows::{ObjectFacts, TaskFacts};
pub use table::table_text;
pub use trial::summary;
pub use why::why_text;
