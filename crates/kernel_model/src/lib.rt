//! The model kernel: what it begins with (`boot`), its scenarios with their scripts, their order of turns and
//! their second form (`scenario`, `script_call`, `turns`, `migration`), and the definition of every answer by
//! look-back through a history. The definitions are in specs/, a file for each subject, and no code here
//! computes them. `law` says what each is after one entry more, and what holds of every legal history.
#![tactic(auto)]

pub mod boot;
mod call_head;
mod call_ranges;
pub mod events;
pub mod law;
pub mod migration;
pub mod place;
pub mod scenario;
pub mod script_call;
pub mod turns;
