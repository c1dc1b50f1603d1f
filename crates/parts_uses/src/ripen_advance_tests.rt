//! That a token moves to the queue whose first one is ripe.

use kern_ids::calls::Queue;
use ripen_advance::TokenQueues;
use std::test::Fail;

/// Objects of LIFO are added with 0 and 2 pages ahead, one of FIFO with 3; it is purged for the
/// ripe token of LIFO, so its token moves there.
#[test]
fn a_token_moves_to_the_ripe_queue(rt: HostRuntime) -> Result<(), Fail> {
    let mut queues = TokenQueues::new(rt.alloc())?;
    queues.add(Queue::Lifo);
    queues.entered(2);
    queues.add(Queue::Lifo);
    queues.entered(1);
    queues.add(Queue::Fifo);
    queues.take_ripe(Queue::Lifo, Queue::Fifo);
    assert_eq!(rt; queues.count_at(Queue::Lifo, 0), Some(2));
    assert_eq!(rt; queues.count_at(Queue::Lifo, 1), Some(3));
    assert_eq!(rt; queues.count_at(Queue::Fifo, 0), None);
    queues.departed(2);
    assert!(rt; queues.ripe(Queue::Lifo));
    Ok(())
}
