//! What the scan decides, and the whole scan.

ghost use Rattle.std.specs.Prelude.{◌≡◌, ◌∷◌, ◌+◌, ◌<◌, ◌^◌, ℕ, List, None, Some, length, slice_get, IsTrue};
ghost use Rattle.kern_ids.specs.declared.entries.Entry.{Entry};
ghost use Rattle.kern_ids.specs.declared.calls.Call.TheVariants.{Scan as AskScan};
ghost use Rattle.kern_ids.specs.declared.replies.Reply.TheVariants.{Purged as HasPurged};
ghost use Rattle.kernel_model.specs.Answers.{answer, refusal};
ghost use Rattle.kernel_model.specs.Histories.{fits};
ghost use Rattle.kernel_model.specs.Scan.{scan};
ghost use Rattle.page_queues.specs.Pages.{inactive, page_of};
ghost use Rattle.purge_pick.specs.Picks.{picked, HasTokens};
ghost use Rattle.kernel_tables.specs.Values.{values, entry_of};
ghost use Rattle.kernel_tables.specs.Stands.{Stands};
ghost use Rattle.kernel_tables.specs.Moves as moves;

use crate::parts::Parts;
use kern_ids::ids::{ObjId, PageId, ThreadId};
use kern_ids::replies::{Move, Reply};
use page_queues::PageQueues;
use pageout_scan::decide;
use pageout_scan::plan::ScanPlan;
use purge_pick::pick;
use ripen_advance::TokenQueues;
use vm_object::ObjectTable;
use volatile_groups::Groups;

/// The object of the ripe purge.
pub(crate) fn ripe_object(tokens: &TokenQueues, groups: &Groups) -> Option<ObjId>
    requires { HasTokens tokens.now groups.now }
    ensures { result ≡ picked tokens.now groups.now }
{
    match pick(tokens, groups) {
        Some(picked) => Some(picked.obj),
        None => None,
    }
}

/// Whether the Inactive page that was placed first is a written one; false where no page is Inactive.
fn first_written(pages: &PageQueues, table: &ObjectTable) -> bool
    requires { (key : ℕ) → slice_get (inactive pages.now) 0 ≡ Some key → (page_of key).obj < length table.now }
    ensures { result ≡ moves.first_written pages.now table.now }
{
    match pages.first_inactive() {
        Some(first) => table.is_written(first.0),
        None => false,
    }
}

/// The Inactive page that was placed first.
fn first_inactive(pages: &PageQueues) -> Option<PageId>
    ensures { result ≡ moves.first_of (inactive pages.now) }
{
    match pages.first_inactive() {
        Some(first) => Some(first.0),
        None => None,
    }
}

impl Parts {
    /// What an accepted scan does.
    pub(crate) fn scan_plan(&self) -> ScanPlan
        ghost past: { List Entry }
        requires stands { Stands (values self.now) past }
        ensures { moves.reply_of self.now.objects.pages result ≡ scan self.now.boot past }
    {
        self.boot.valid();
        let ripe = ripe_object(&self.objects.tokens, &self.objects.groups);
        let written = first_written(&self.objects.pages, &self.objects.table);
        let params = self.boot.params();
        decide(&self.objects.pages, &params, ripe, written)
    }

    /// The scan moves the first page of a queue, if there is one.
    fn scan_first(&mut self, who: ThreadId, how: Move, first: Option<PageId>) -> Reply
        ghost past: { List Entry }
        requires stands { Stands (values self.old) past }
        requires fits { IsTrue (fits self.old.boot who AskScan) }
        requires accepted { refusal self.old.boot past who AskScan ≡ None }
        requires decided { scan self.old.boot past ≡ moves.reply_moved how first }
        requires room { self.old.entered + 1 < 2 ^ 64 }
        ensures reply { result ≡ answer self.old.boot past who AskScan }
        ensures stands { Stands (values self.new) (entry_of who AskScan result ∷ past) }
        ensures boot { self.new.boot ≡ self.old.boot }
    {
        match first {
            Some(p) => self.scan_move(who, how, p),
            None => Reply::Idle,
        }
    }

    /// The scan purges the object of the ripe purge.
    fn scan_ripe(&mut self, who: ThreadId, _o: ObjId) -> Reply
        ghost past: { List Entry }
        requires stands { Stands (values self.old) past }
        requires fits { IsTrue (fits self.old.boot who AskScan) }
        requires accepted { refusal self.old.boot past who AskScan ≡ None }
        requires decided { scan self.old.boot past ≡ HasPurged _o }
        ensures reply { result ≡ answer self.old.boot past who AskScan }
        ensures stands { Stands (values self.new) (entry_of who AskScan result ∷ past) }
        ensures boot { self.new.boot ≡ self.old.boot }
    {
        match self.pick() {
            Some(p) => self.scan_purge(who, p),
            None => Reply::Nothing,
        }
    }

    /// Scan, where it is not refused and fewer than 2^64 - 1 pages were deactivated.
    pub(crate) fn scan(&mut self, who: ThreadId) -> Reply
        ghost past: { List Entry }
        requires stands { Stands (values self.old) past }
        requires fits { IsTrue (fits self.old.boot who AskScan) }
        requires accepted { refusal self.old.boot past who AskScan ≡ None }
        requires room { self.old.entered + 1 < 2 ^ 64 }
        ensures reply { result ≡ answer self.old.boot past who AskScan }
        ensures stands { Stands (values self.new) (entry_of who AskScan result ∷ past) }
        ensures boot { self.new.boot ≡ self.old.boot }
    {
        match self.scan_plan() {
            ScanPlan::Enough => Reply::Enough,
            ScanPlan::Deactivate => {
                let first = self.objects.pages.first_active();
                self.scan_first(who, Move::Deactivated, first)
            }
            ScanPlan::Purge(o) => self.scan_ripe(who, o),
            ScanPlan::Reactivate => {
                let first = first_inactive(&self.objects.pages);
                self.scan_first(who, Move::Reactivated, first)
            }
            ScanPlan::Free => {
                let first = first_inactive(&self.objects.pages);
                self.scan_first(who, Move::Freed, first)
            }
            ScanPlan::Compress => {
                let first = first_inactive(&self.objects.pages);
                self.scan_first(who, Move::Compressed, first)
            }
            ScanPlan::Requeue => {
                let first = first_inactive(&self.objects.pages);
                self.scan_first(who, Move::Requeued, first)
            }
            ScanPlan::Idle => Reply::Idle,
        }
    }
}
