//! Tests that go through many crates: kernels beside each other, verdicts on texts, reports, commands, ends that
//! fail, and each exit status.
#![tactic(auto)]

#[cfg(test)]
mod cases;
#[cfg(test)]
mod check_source_tests;
#[cfg(test)]
mod commands_tests;
#[cfg(test)]
mod endless;
#[cfg(test)]
mod failing_ends;
#[cfg(test)]
mod kernels_tests;
#[cfg(test)]
mod limits;
#[cfg(test)]
mod pieces;
#[cfg(test)]
mod pieces_tests;
#[cfg(test)]
mod pressure;
#[cfg(test)]
mod reading;
#[cfg(test)]
mod replay_kernel_tests;
#[cfg(test)]
mod report_tables_tests;
#[cfg(test)]
mod scenarios;
#[cfg(test)]
mod statuses;
#[cfg(test)]
mod texts;
#[cfg(test)]
mod verdicts_tests;
