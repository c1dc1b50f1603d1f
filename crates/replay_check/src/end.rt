//! How a check of pieces ends.

use crate::Verdict;
use kern_ids::faults::Why;

/// What is found of the bytes of a history.
#[derive(Clone, Copy, PartialEq, Eq, Debug)]
pub enum PieceEnd {
    /// They are no history: the line of the first fault, and why it is refused.
    Bad { line: u32, why: Why },
    /// They are a history, and this is the verdict on it.
    Done(Verdict),
}
