//! That queues are made, with all frames free.

use page_queues::PageQueues;

#[test]
fn all_frames_are_free_at_first(rt: HostRuntime) {
    let made = PageQueues::new(rt.alloc(), 2, &[2]);
    assert!(rt; made.is_ok());
    if let Ok(queues) = made {
        assert!(rt; queues.counts().free == 2);
        assert!(rt; queues.first_active().is_none());
    }
}
