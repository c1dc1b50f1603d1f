//! The kernel of one thread, one call at a time: which object's bytes a call needs (`need`), what the call
//! does with them (`effect`), its answer and its entry (`kernel`). Answers are the definitions' over the
//! history, and come from tables that represent it. A kernel is over a log, which keeps the entries
//! (`EntryList`), or whose entries only proofs know (`GhostLog`). `one_thread` is the kernel with the bytes of
//! its objects.
#![tactic(auto)]

pub mod effect;
pub mod ghost_log;
pub mod kernel;
pub mod law;
pub mod log;
pub mod need;
mod one_steps;
pub mod one_thread;
mod over;
mod past;
pub mod range;

pub use kernel_tables::tables::Tables;
