use kern_ids::calls::Queue;
use kern_ids::replies::Cause;

/// Why an entry was answered as it was, by what came before it.
#[derive(Clone, Copy)]
pub enum Reason {
    /// The queue of the ripe token, its first deadline, how many pages had left, and the object that was
    /// purged: its group, its number and its queue.
    Ripe(Queue, usize, usize, u32, u32, Queue),
    /// The object that was purged: its queue, its group and its number.
    Forced(Queue, u32, u32),
    /// The cause, the task's band, its footprint, its present limit, and the free frames.
    Killed(Cause, u32, u32, u32, u32),
    /// The entry that emptied the object.
    Emptied(usize),
}
