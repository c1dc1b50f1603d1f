//! Scenarios that are made of a seed: a fixed head, and turns whose threads and calls are drawn.
#![tactic(auto)]

mod calls;
mod draws;
mod head;
pub mod law;
mod made;

pub use made::make_scenario;
