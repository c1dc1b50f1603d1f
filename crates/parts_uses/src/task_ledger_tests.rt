//! That ledgers are made.

use kern_ids::calls::Limit;
use kern_ids::ids::{Band, TaskId};
use kernel_model::boot::TaskBoot;
use task_ledger::Ledgers;
use task_ledger::account::Over;

#[test]
fn a_task_is_charged_nothing_at_first(rt: HostRuntime) {
    if let Some(band) = Band::new(1)
        && let Some(t) = TaskId::new(0)
    {
        let limit = Limit {
            pages: 0,
            fatal: true,
        };
        let boot = TaskBoot {
            band,
            active: limit,
            inactive: limit,
            internal: true,
            delay: 1,
            ageing: band,
        };
        let made = Ledgers::new(rt.alloc(), &[boot]);
        assert!(rt; made.is_ok());
        if let Ok(ledgers) = made {
            assert!(rt; ledgers.is_live(t) && ledgers.is_internal(t));
            assert!(rt; ledgers.over(t) == Over::Within);
        }
    }
}
