//! Gates that hold the calls of two threads, and the tests of runs by threads.
#![tactic(auto)]

pub mod baton;
#[cfg(test)]
mod every_order;
#[cfg(test)]
mod own_threads;
pub mod schedule;
#[cfg(test)]
mod tests;
