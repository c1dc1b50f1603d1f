//! The verdicts of jetsam.

use kern_ids::ids::TaskId;
use kern_ids::replies::Cause;

/// What jetsam does.
#[derive(Clone, Copy, PartialEq, Eq, Debug)]
pub enum JetsamVerdict {
    /// Nothing: enough frames are free.
    Quiet,
    /// A task is killed.
    Kill(TaskId, Cause),
    /// Nothing: no task may be killed.
    NoVictim,
}
