//! The commands of the program: from its words, a source and a sink to the exit status. `jetlab_top` does
//! every command. `serial_top` does those that need no threads, all but `run`. `check_source` checks an input
//! as it is read, a piece at a time.
#![tactic(auto)]

mod answer;
mod begun;
mod command;
mod decide;
mod messages;
mod opening;
mod pieces;
mod program;
mod run;
mod shell;
mod source;
mod top;

pub use program::jetlab_top;
pub use source::check_source;
pub use top::serial_top;
