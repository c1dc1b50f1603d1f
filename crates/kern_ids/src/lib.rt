//! The value types of the model kernel: numbers of things, calls, replies, entries, and what can
//! be wrong with a text. Nothing here knows a rule of the kernel but the layout of the state word.
#![tactic(auto)]

pub mod calls;
pub mod entries;
pub mod faults;
pub mod ids;
pub mod lines;
pub mod replies;
