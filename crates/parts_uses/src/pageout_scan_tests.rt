//! What the scan does with one page.

use kern_ids::ids::{ObjId, PageId};
use kernel_model::boot::Params;
use page_queues::PageQueues;
use pageout_scan::decide;
use pageout_scan::plan::ScanPlan;

/// The parameters of a system with two frames that wants both of them free.
fn params(inactive: u32, store: u32) -> Params {
    Params {
        frames: 2,
        target: 2,
        inactive,
        store,
        critical: 0,
    }
}

#[test]
fn a_page_goes_its_way(rt: HostRuntime) {
    let made = PageQueues::new(rt.alloc(), 2, &[1]);
    assert!(rt; made.is_ok());
    if let Ok(mut queues) = made
        && let Some(obj) = ObjId::new(0)
    {
        assert!(rt; decide(&queues, &params(1, 1), None, false) == ScanPlan::Enough);
        assert!(rt; queues.fault(PageId { obj, page: 0 }));
        assert!(rt; decide(&queues, &params(0, 1), None, true) == ScanPlan::Idle);
        assert!(rt; decide(&queues, &params(1, 1), None, true) == ScanPlan::Deactivate);
        let _ = queues.deactivate_first();
        assert!(rt; decide(&queues, &params(1, 1), None, false) == ScanPlan::Free);
        assert!(rt; decide(&queues, &params(1, 1), None, true) == ScanPlan::Compress);
        assert!(rt; decide(&queues, &params(1, 0), None, true) == ScanPlan::Requeue);
        queues.touch(PageId { obj, page: 0 });
        assert!(rt; decide(&queues, &params(1, 1), None, true) == ScanPlan::Reactivate);
        assert!(rt; decide(&queues, &params(1, 1), Some(obj), true) == ScanPlan::Purge(obj));
    }
}
