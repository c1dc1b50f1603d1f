//! One call: its reply, and the tables after it.

ghost use Rattle.std.specs.Prelude.{◌≡◌, ◌<◌, ◌+◌, ◌^◌, ◌∷◌, List, length, IsTrue, None};
ghost use Rattle.kern_ids.specs.declared.entries.Entry.{Entry};
ghost use Rattle.kernel_model.specs.Answers.{answer, refusal};
ghost use Rattle.kernel_model.specs.Histories.{fits};
ghost use Rattle.kernel_model.specs.Events.{purged_by};
ghost use Rattle.kernel_model.specs.Pages.{free};
ghost use Rattle.page_queues.specs.Pages.{Pages};
ghost use Rattle.kernel_tables.specs.Moves.{reply_of};
ghost use Rattle.kernel_tables.specs.Values.{values, entry_of};
ghost use Rattle.kernel_tables.specs.Seen.{SeesBytes};
ghost use Rattle.kernel_tables.specs.Stands.{Stands};

use crate::decisions::ripe_object;
use crate::parts::Parts;
use kern_ids::calls::Call;
use kern_ids::ids::{ObjId, ThreadId};
use kern_ids::lines::ByteLine;
use kern_ids::replies::Reply;
use pageout_scan::plan::ScanPlan;
use purge_pick::forced;

// The object that a plan purges.
fn purged_in(plan: ScanPlan) -> Option<ObjId>
    ensures { (pages : Pages) → result ≡ purged_by (reply_of pages plan) }
{
    match plan {
        ScanPlan::Purge(o) => Some(o),
        _ => None,
    }
}

impl Parts {
    // A call that is not refused.
    fn accepted(&mut self, who: ThreadId, call: &Call, seen: ByteLine) -> Reply
        ghost past: { List Entry }
        requires stands { Stands (values self.old) past }
        requires fits { IsTrue (fits self.old.boot who call.now) }
        requires accepted { refusal self.old.boot past who call.now ≡ None }
        requires seen { SeesBytes self.old.boot past call.now seen }
        requires room { length past + 1 < 2 ^ 64 }
        ensures reply { result ≡ answer self.old.boot past who call.now }
        ensures stands { Stands (values self.new) (entry_of who call.now result ∷ past) }
        ensures boot { self.new.boot ≡ self.old.boot }
    {
        match call {
            Call::Map { obj } => self.map(who, *obj),
            Call::Attach { obj } => self.attach(who, *obj),
            Call::Unmap { obj } => self.unmap(who, *obj),
            Call::Write { obj, off, bytes } => self.write(who, *obj, *off, *bytes),
            Call::Read { obj, off, len } => self.read(who, *obj, *off, *len, seen),
            Call::SetState { obj, word } => self.set_state(who, *obj, *word),
            Call::GetState { obj } => self.get_state(who, *obj),
            Call::Active { on } => self.set_active(who, *on),
            Call::Ledger => self.ledger(who),
            Call::Exit => self.exit(who),
            Call::PurgeOne => self.purge_one(who),
            Call::Forced => self.forced(who),
            Call::Scan => self.scan(who),
            Call::Tick => self.tick(who),
            Call::Jetsam => self.jetsam(who),
            Call::SetBand { task, band } => self.set_band(who, *task, *band),
            Call::SetLimits {
                task,
                active,
                inactive,
            } => self.set_limits(who, *task, *active, *inactive),
            Call::Info => self.info(who),
            Call::Purgeables => self.purgeables(who),
        }
    }

    /// Any call: the first refusal that applies, or what an accepted call gets.
    pub(crate) fn step(&mut self, who: ThreadId, call: &Call, seen: ByteLine) -> Reply
        ghost past: { List Entry }
        requires stands { Stands (values self.old) past }
        requires fits { IsTrue (fits self.old.boot who call.now) }
        requires seen { SeesBytes self.old.boot past call.now seen }
        requires room { length past + 1 < 2 ^ 64 }
        ensures reply { result ≡ answer self.old.boot past who call.now }
        ensures stands { Stands (values self.new) (entry_of who call.now result ∷ past) }
        ensures boot { self.new.boot ≡ self.old.boot }
    {
        match self.refusal(who, call) {
            Some(why) => self.refused(who, call, why),
            None => self.accepted(who, call, seen),
        }
    }

    /// The object that the call would purge.
    pub(crate) fn purged(&self, who: ThreadId, call: &Call) -> Option<ObjId>
        ghost past: { List Entry }
        requires stands { Stands (values self.now) past }
        requires fits { IsTrue (fits self.now.boot who call.now) }
        ensures { result ≡ purged_by (answer self.now.boot past who call.now) }
    {
        self.boot.valid();
        match call {
            Call::PurgeOne => ripe_object(&self.objects.tokens, &self.objects.groups),
            Call::Forced => forced(&self.objects.groups),
            Call::Scan => purged_in(self.scan_plan()),
            _ => None,
        }
    }

    /// The free frames.
    pub(crate) fn free(&self) -> u32
        ghost past: { List Entry }
        requires stands { Stands (values self.now) past }
        ensures { result ≡ free self.now.boot past }
    {
        self.objects.pages.counts().free
    }
}
