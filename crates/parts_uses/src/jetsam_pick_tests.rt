//! That a system without tasks has no victim.

use jetsam_pick::verdict::JetsamVerdict;
use jetsam_pick::victim;
use priority_bands::Bands;
use task_ledger::Ledgers;

#[test]
fn no_task_no_victim(rt: HostRuntime) {
    let ledgers = Ledgers::new(rt.alloc(), &[]);
    let bands = Bands::new(rt.alloc());
    assert!(rt; ledgers.is_ok() && bands.is_ok());
    if let Ok(ledgers) = ledgers
        && let Ok(bands) = bands
    {
        assert!(rt; victim(3, 3, &bands, &ledgers) == JetsamVerdict::Quiet);
        assert!(rt; victim(2, 3, &bands, &ledgers) == JetsamVerdict::NoVictim);
    }
}
