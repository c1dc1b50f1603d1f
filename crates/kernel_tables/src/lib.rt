//! The working state of the kernel: what it has to keep to answer each call as the definitions do over the
//! history so far, with no look back at the history.
#![tactic(auto)]

mod asks;
mod beginnings;
mod charging;
mod decisions;
mod ends;
pub mod law;
mod mapping;
mod page_charges;
mod parts;
mod placings;
mod purges;
mod range_access;
mod refusals;
mod scans;
pub mod standing;
mod states;
mod steps;
pub mod tables;
mod tasks;
mod ticks;
mod verdicts;
