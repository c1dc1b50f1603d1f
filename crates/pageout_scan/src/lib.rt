//! What the scan does next.
#![tactic(auto)]

ghost use Rattle.std.specs.Prelude.{◌≡◌, ◌<◌, true, length, slice_get};
ghost use Rattle.std.specs.Option.{option_map_or};
ghost use Rattle.page_queues.specs.Pages.{active, inactive};
ghost use Rattle.pageout_scan.specs.declared.plan.ScanPlan.TheVariants.{Idle};
ghost use Rattle.pageout_scan.specs.Plans.{scan_plan, plan_of_inactive, takes_active, takes_inactive};

pub mod plan;

use kern_ids::ids::ObjId;
use kernel_model::boot::Params;
use page_queues::PageQueues;
use plan::ScanPlan;

/// What the scan does: the first of these that applies.
///
/// - Enough where at least `target` frames are free.
/// - Deactivate where fewer than `inactive` pages are Inactive and a page is Active.
/// - Purge where a ripe token chooses an object, `ripe`.
/// - Where a page is Inactive, of the one that was placed first: Reactivate where it is marked; Free where it
///   wasn't written since its object was last emptied, which `written` says; Compress where fewer than `store`
///   pages are Stored; else Requeue.
/// - Idle.
///
/// Where no page is Inactive, `written` has no meaning.
pub fn decide(q: &PageQueues, p: &Params, ripe: Option<ObjId>, written: bool) -> ScanPlan
    ensures plan { result ≡ scan_plan q.now p.now ripe written }
    ensures active { takes_active result ≡ true → 0 < length (active q.now) }
    ensures inactive { takes_inactive result ≡ true → 0 < length (inactive q.now) }
{
    let counts = q.counts();
    if p.target <= counts.free {
        return ScanPlan::Enough;
    }
    if counts.inactive < p.inactive && counts.active > 0 {
        return ScanPlan::Deactivate;
    }
    match ripe {
        Some(o) => ScanPlan::Purge(o),
        None => plan_for_inactive(q, p, written),
    }
}

/// What is done with the Inactive page that was placed first, if there is one.
fn plan_for_inactive(q: &PageQueues, p: &Params, written: bool) -> ScanPlan
    ensures { result ≡ option_map_or (plan_of_inactive q.now p.now written) (slice_get (inactive q.now) 0) Idle }
{
    match q.first_inactive() {
        None => ScanPlan::Idle,
        Some(first) => {
            if first.1 {
                ScanPlan::Reactivate
            } else if !written {
                ScanPlan::Free
            } else if q.counts().stored < p.store {
                ScanPlan::Compress
            } else {
                ScanPlan::Requeue
            }
        }
    }
}
