//! What a choice answers.

use kern_ids::calls::Queue;
use kern_ids::ids::ObjId;

/// The object of a ripe purge, the queue whose first token is ripe, and the queue in which the object
/// stands: the same, or both are aged queues, LIFO and FIFO.
#[derive(Clone, Copy, PartialEq, Eq, Debug)]
pub struct Pick {
    pub obj: ObjId,
    pub token_queue: Queue,
    pub object_queue: Queue,
}
