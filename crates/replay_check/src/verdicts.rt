//! What a check finds.

use kern_ids::ids::ThreadId;
use kern_ids::replies::Reply;

/// What is found of a history of a scenario. Places are counted from 0.
#[derive(Clone, Copy, PartialEq, Eq, Debug)]
pub enum Verdict {
    /// Each call is the next of its script, each reply is the kernel's, and each script is spent.
    Legal,
    /// At this place, the first that is wrong, the call is right and the reply should be this one.
    WrongReply { place: u32, expected: Reply },
    /// At this place, the first that is wrong, the thread isn't declared or the call isn't the next of its script.
    WrongCall { place: u32 },
    /// No place is wrong, and this is the least thread whose script isn't spent.
    Missing { thread: ThreadId },
}
