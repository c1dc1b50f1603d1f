//! The purges.

ghost use Rattle.std.specs.Prelude.{◌≡◌, ◌-◌, ◌<◌, ◌≤◌, ◌∷◌, ◌&&◌, ℕ, List, None, Some, not, true, length, option_map, slice_index_or, IfSome, IsTrue};
ghost use Rattle.kern_ids.specs.declared.calls.Call.{Call as ACall};
ghost use Rattle.kern_ids.specs.declared.calls.Call.TheVariants.{Forced as AskForced, PurgeOne as AskPurgeOne, Scan as AskScan};
ghost use Rattle.kern_ids.specs.declared.calls.Queue.{Queue as AQueue};
ghost use Rattle.kern_ids.specs.declared.entries.Entry.{Entry};
ghost use Rattle.kern_ids.specs.declared.replies.Reply.TheVariants.{Purged as APurged};
ghost use Rattle.kernel_model.specs.Answers.{answer, refusal};
ghost use Rattle.kernel_model.specs.Choice.{forced, pick};
ghost use Rattle.kernel_model.specs.Histories.{fits, IsLegal};
ghost use Rattle.kernel_model.specs.Laws.Legal.{is_ripe_call};
ghost use Rattle.kernel_model.specs.Mapping.{mapped};
ghost use Rattle.kernel_model.specs.Pages.{inactive_pages, left};
ghost use Rattle.page_queues.specs.Pages.{inactive, is_marked, is_of_first, without_object};
ghost use Rattle.page_queues.specs.Tallies.{count_of};
ghost use Rattle.token_list.specs.Dues.{lowered_by};
ghost use Rattle.ripen_advance.specs.Queues.{dues_in};
ghost use Rattle.vm_object.specs.Objects.{changed, purged};
ghost use Rattle.kernel_tables.specs.Emptying.{IsEmptying};
ghost use Rattle.kernel_tables.specs.Picked.{IsPicked};
ghost use Rattle.kernel_tables.specs.Stands.{AccountsStand, ObjectsStand, PagesStand, Stands};
ghost use Rattle.kernel_tables.specs.Values.{values, entry_of};

use crate::parts::{ObjectParts, Parts};
use kern_ids::ids::{ObjId, ThreadId};
use kern_ids::replies::Reply;
use purge_pick::choice::Pick;

impl ObjectParts {
    /// All pages of an object become Absent, the tokens count those that were Inactive, and the object is
    /// EMPTY with no written page.
    fn empty(&mut self, o: ObjId)
        requires object { o < length self.old.table }
        requires sized { o < length self.old.pages.sizes }
        requires ahead { count_of o (inactive self.old.pages) ≤ self.old.tokens.ahead }
        ensures frames { self.new.pages.frames ≡ self.old.pages.frames }
        ensures sizes { self.new.pages.sizes ≡ self.old.pages.sizes }
        ensures queues { self.new.pages.queues ≡ without_object o (slice_index_or self.old.pages.sizes o 0) self.old.pages.queues }
        ensures marks { (key : ℕ) → is_marked self.new.pages key ≡ (is_marked self.old.pages key && not (is_of_first o (slice_index_or self.old.pages.sizes o 0) key)) }
        ensures dues { (q : AQueue) → dues_in self.new.tokens q ≡ lowered_by (count_of o (inactive self.old.pages)) (dues_in self.old.tokens q) }
        ensures ahead { self.new.tokens.ahead ≡ self.old.tokens.ahead - count_of o (inactive self.old.pages) }
        ensures objects { self.new.table ≡ changed self.old.table o purged }
        ensures groups { self.new.groups ≡ self.old.groups }
    {
        let gone = self.pages.drop_object(o);
        self.tokens.departed(gone);
        self.table.purge(o);
    }
}

impl Parts {
    /// An object that a task maps is emptied: all its pages become Absent, the tokens count those that were
    /// Inactive, it is EMPTY with no written page, and its charge is taken off its owner's account.
    pub(crate) fn empty_object(&mut self, o: ObjId)
        ghost past: { List Entry }
        requires pages { PagesStand self.old.boot past self.old.objects.pages self.old.entered }
        requires ahead { self.old.objects.tokens.ahead ≡ inactive_pages self.old.boot past }
        requires objects { ObjectsStand self.old.boot past self.old.objects.table }
        requires accounts { AccountsStand self.old.boot past self.old.tasks.ledgers }
        requires object { o < length self.old.boot.objects }
        requires mapped { mapped self.old.boot past o ≡ true }
        ensures pages { (e : Entry) → IsEmptying self.old.boot e past o → PagesStand self.old.boot (e ∷ past) self.new.objects.pages self.old.entered }
        ensures ahead { (e : Entry) → IsEmptying self.old.boot e past o → self.new.objects.tokens.ahead ≡ inactive_pages self.old.boot (e ∷ past) }
        ensures dues { (e : Entry) → IsEmptying self.old.boot e past o → (q : AQueue) → dues_in self.new.objects.tokens q ≡ lowered_by (left self.old.boot (e ∷ past) - left self.old.boot past) (dues_in self.old.objects.tokens q) }
        ensures objects { (e : Entry) → IsEmptying self.old.boot e past o → ObjectsStand self.old.boot (e ∷ past) self.new.objects.table }
        ensures accounts { (e : Entry) → IsEmptying self.old.boot e past o → AccountsStand self.old.boot (e ∷ past) self.new.tasks.ledgers }
        ensures boot { self.new.boot ≡ self.old.boot }
        ensures groups { self.new.objects.groups ≡ self.old.objects.groups }
        ensures bands { self.new.tasks.bands ≡ self.old.tasks.bands }
        ensures ages { self.new.tasks.ages ≡ self.old.tasks.ages }
        ensures wishes { self.new.tasks.wishes.items ≡ self.old.tasks.wishes.items }
        ensures entered { self.new.entered ≡ self.old.entered }
    {
        self.boot.valid();
        let charge = self.objects.charge(o);
        let t = self.objects.table.owner(o).unwrap();
        self.tasks.ledgers.take(t, &charge);
        self.objects.empty(o);
    }

    /// What is purged for a ripe token; None where no token is ripe.
    pub(crate) fn pick(&self) -> Option<Pick>
        ghost past: { List Entry }
        requires stands { Stands (values self.now) past }
        ensures object { option_map (λ p. p.obj) result ≡ pick self.now.boot past }
        ensures picked { IfSome result (λ p. IsPicked self.now.boot past p) }
    {
        self.boot.valid();
        purge_pick::pick(&self.objects.tokens, &self.objects.groups)
    }

    /// The purge for a ripe token: the token goes, the object leaves its group and is emptied. Answers the
    /// object.
    fn take_picked(&mut self, p: Pick) -> Reply
        ghost past: { List Entry }
        requires stands { Stands (values self.old) past }
        requires picked { IsPicked self.old.boot past p }
        ensures reply { result ≡ APurged p.obj }
        ensures stands { (who : ℕ) (call : ACall) → is_ripe_call call ≡ true → IsLegal self.old.boot (entry_of who call (APurged p.obj) ∷ past) → Stands (values self.new) (entry_of who call (APurged p.obj) ∷ past) }
        ensures boot { self.new.boot ≡ self.old.boot }
    {
        self.boot.valid();
        self.objects.groups.are_groups();
        self.objects.tokens.take_ripe(p.token_queue, p.object_queue);
        let _queue = self.objects.groups.remove(p.obj);
        self.empty_object(p.obj);
        Reply::Purged(p.obj)
    }

    /// The forced purge: the object leaves its group, the first token of its queue goes, and it is emptied.
    fn take_forced(&mut self, o: ObjId)
        ghost past: { List Entry }
        requires stands { Stands (values self.old) past }
        requires forced { forced self.old.boot past ≡ Some o }
        ensures stands { (who : ℕ) → IsLegal self.old.boot (entry_of who AskForced (APurged o) ∷ past) → Stands (values self.new) (entry_of who AskForced (APurged o) ∷ past) }
        ensures boot { self.new.boot ≡ self.old.boot }
    {
        self.boot.valid();
        self.objects.groups.are_groups();
        let queue = self.objects.groups.remove(o);
        self.objects.tokens.drop_first(queue);
        self.empty_object(o);
    }

    /// PurgeOne, where it is not refused: the object of the ripe purge, or nothing where no token is ripe.
    pub(crate) fn purge_one(&mut self, who: ThreadId) -> Reply
        ghost past: { List Entry }
        requires stands { Stands (values self.old) past }
        requires fits { IsTrue (fits self.old.boot who AskPurgeOne) }
        requires accepted { refusal self.old.boot past who AskPurgeOne ≡ None }
        ensures reply { result ≡ answer self.old.boot past who AskPurgeOne }
        ensures stands { Stands (values self.new) (entry_of who AskPurgeOne result ∷ past) }
        ensures boot { self.new.boot ≡ self.old.boot }
    {
        match self.pick() {
            Some(p) => self.take_picked(p),
            None => Reply::Nothing,
        }
    }

    /// Forced, where it is not refused: the object of the forced purge, or nothing where no object is
    /// volatile.
    pub(crate) fn forced(&mut self, who: ThreadId) -> Reply
        ghost past: { List Entry }
        requires stands { Stands (values self.old) past }
        requires fits { IsTrue (fits self.old.boot who AskForced) }
        requires accepted { refusal self.old.boot past who AskForced ≡ None }
        ensures reply { result ≡ answer self.old.boot past who AskForced }
        ensures stands { Stands (values self.new) (entry_of who AskForced result ∷ past) }
        ensures boot { self.new.boot ≡ self.old.boot }
    {
        match purge_pick::forced(&self.objects.groups) {
            Some(o) => {
                self.take_forced(o);
                Reply::Purged(o)
            }
            None => Reply::Nothing,
        }
    }

    /// A Scan that purges the object of the ripe purge.
    pub(crate) fn scan_purge(&mut self, who: ThreadId, p: Pick) -> Reply
        ghost past: { List Entry }
        requires stands { Stands (values self.old) past }
        requires fits { IsTrue (fits self.old.boot who AskScan) }
        requires picked { IsPicked self.old.boot past p }
        requires decided { answer self.old.boot past who AskScan ≡ APurged p.obj }
        ensures reply { result ≡ answer self.old.boot past who AskScan }
        ensures stands { Stands (values self.new) (entry_of who AskScan result ∷ past) }
        ensures boot { self.new.boot ≡ self.old.boot }
    {
        self.take_picked(p)
    }
}
