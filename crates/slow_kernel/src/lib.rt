//! The plain kernel: it answers each call by looking back through its entries.
#![tactic(auto)]

pub mod answers;
pub mod contents;
pub mod deadlines;
pub mod groups;
pub mod kernel;
pub mod mapping;
pub mod pages;
pub mod scan;
pub mod states;
pub mod tasks;
pub mod victims;
