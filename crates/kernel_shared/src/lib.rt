//! The kernel shared by threads. A call takes effect in one moment, when it leaves the turn: its entry is
//! then the last of the history. The bytes of an object are read and written under the word of the object,
//! outside the turn.
#![tactic(auto)]

pub mod gate;
mod methods;
pub mod shared;
pub mod value;
