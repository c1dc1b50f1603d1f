//! The verdict on a history of a scenario: its calls are made again, one after the other, and each reply is
//! compared with the one that the kernel gives now. The history comes whole (`check`, `replay`), an entry or
//! a line at a time (`Replay`), or as a text in pieces of any size, of which none is kept (`PieceCheck`).
#![tactic(auto)]

mod checks;
mod end;
pub mod law;
mod line_replay;
mod lines;
mod pieces;
mod replays;
mod same;
mod verdicts;

pub use checks::{check, replay};
pub use end::PieceEnd;
pub use line_replay::LineReplay;
pub use pieces::PieceCheck;
pub use replays::Replay;
pub use verdicts::Verdict;
