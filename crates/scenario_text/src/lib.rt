//! The text of a scenario, read and written. A scenario has exactly one text, and reading takes that text
//! and no other: where it does not, it answers the first line that is wrong and why.
#![tactic(auto)]

mod declarations;
mod fault;
pub mod law;
mod pieces;
mod place;
mod scan;
mod stage;
mod writing;

pub use pieces::ScenarioPieces;
pub use scan::{read_front, read_scenario};
