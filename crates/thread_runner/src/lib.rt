//! A scenario's run: by threads that share a kernel, a thread for each script, or on one thread in the order
//! of its turns (`serial`).
#![tactic(auto)]

mod script;
pub mod serial;
mod threads;

pub use script::run_script;
pub use threads::run_threads;
