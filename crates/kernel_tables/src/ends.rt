//! The accepted calls that end mappings and tasks.

ghost use Rattle.std.specs.Prelude.{◌≡◌, ◌∷◌, ◌<◌, ◌≤◌, ◌+◌, ◌-◌, ◌&&◌, ℕ, List, IsSome, IsTrue, None, Some, false, true, length, map, nat_eq, not, set, slice_index_or, if◌then◌else◌};
ghost use Rattle.kern_ids.specs.declared.calls.Call.TheVariants.{Exit, Jetsam, Unmap};
ghost use Rattle.kern_ids.specs.declared.calls.Queue.{Queue as AQueue};
ghost use Rattle.kern_ids.specs.declared.entries.Entry.{Entry};
ghost use Rattle.kern_ids.specs.declared.replies.Reply.TheVariants.{Killed};
ghost use Rattle.kernel_model.specs.Answers.{answer, refusal};
ghost use Rattle.kernel_model.specs.Events.{task_of as task_by};
ghost use Rattle.kernel_model.specs.Groups.{is_volatile_state};
ghost use Rattle.kernel_model.specs.Histories.{fits, IsLegal};
ghost use Rattle.kernel_model.specs.Laws.Kinds.{unmap_entry};
ghost use Rattle.kernel_model.specs.Mapping.{maps};
ghost use Rattle.link_list.specs.KeyLists.{place_of, without};
ghost use Rattle.page_queues.specs.Pages.{inactive, is_marked, is_of_first, without_object};
ghost use Rattle.page_queues.specs.Tallies.{count_of};
ghost use Rattle.ripen_advance.specs.Queues.{dues_in};
ghost use Rattle.idle_ageing.specs.Ageing.{count_of as count_at};
ghost use Rattle.priority_bands.specs.Banded.{removed};
ghost use Rattle.task_ledger.specs.Accounts.{account_of};
ghost use Rattle.token_list.specs.Dues.{lowered_by};
ghost use Rattle.vm_object.specs.Objects.{object_at};
ghost use Rattle.volatile_groups.specs.Grouped.{queue_of};
ghost use Rattle.kernel_tables.specs.Ends as ends;
ghost use Rattle.kernel_tables.specs.Ends.{IsEnding, StandsOver};
ghost use Rattle.kernel_tables.specs.Stands.{Stands};
ghost use Rattle.kernel_tables.specs.Values.{values, entry_of};

use crate::charging::{burden, relieve};
use crate::parts::{ObjectParts, Parts, TaskParts};
use jetsam_pick::verdict::JetsamVerdict;
use kern_ids::calls::State;
use kern_ids::ids::{ObjId, TaskId, ThreadId};
use kern_ids::replies::{Cause, Reply};
use kernel_model::events::task_of;

/// Whether an object is VOLATILE.
fn is_volatile(state: State) -> bool
    ensures { result ≡ is_volatile_state state }
{
    matches!(state, State::Volatile)
}

impl ObjectParts {
    /// Where an object leaves its group, the first token of its queue goes with it.
    fn leave_group(&mut self, leaves: bool, o: ObjId)
        requires present { leaves ≡ true → IsSome (place_of o self.old.groups) }
        requires token { (q : AQueue) → queue_of o self.old.groups ≡ Some q → 0 < length (dues_in self.old.tokens q) }
        ensures pages { self.new.pages ≡ self.old.pages }
        ensures table { self.new.table ≡ self.old.table }
        ensures groups { self.new.groups ≡ (if leaves then map (without o) self.old.groups else self.old.groups) }
        ensures tokens { self.new.tokens ≡ (if leaves then ends.first_taken (queue_of o self.old.groups) self.old.tokens else self.old.tokens) }
        ensures ahead { self.new.tokens.ahead ≡ self.old.tokens.ahead }
    {
        if leaves {
            let queue = self.groups.remove(o);
            self.tokens.drop_first(queue);
        }
    }

    /// An object that nobody maps any more leaves its group, if it is in one, with the first token of its
    /// queue; all its pages become Absent, and the tokens count those that were Inactive.
    fn retire(&mut self, o: ObjId)
        requires object { o < length self.old.table }
        requires sized { o < length self.old.pages.sizes }
        requires present { is_volatile_state (object_at self.old.table o).state ≡ true → IsSome (place_of o self.old.groups) }
        requires token { (q : AQueue) → queue_of o self.old.groups ≡ Some q → 0 < length (dues_in self.old.tokens q) }
        requires ahead { count_of o (inactive self.old.pages) ≤ self.old.tokens.ahead }
        ensures table { self.new.table ≡ self.old.table }
        ensures frames { self.new.pages.frames ≡ self.old.pages.frames }
        ensures sizes { self.new.pages.sizes ≡ self.old.pages.sizes }
        ensures queues { self.new.pages.queues ≡ without_object o (slice_index_or self.old.pages.sizes o 0) self.old.pages.queues }
        ensures marks { (key : ℕ) → is_marked self.new.pages key ≡ (is_marked self.old.pages key && not (is_of_first o (slice_index_or self.old.pages.sizes o 0) key)) }
        ensures groups { self.new.groups ≡ (if is_volatile_state (object_at self.old.table o).state then map (without o) self.old.groups else self.old.groups) }
        ensures dues { (q : AQueue) → dues_in self.new.tokens q ≡ lowered_by (count_of o (inactive self.old.pages)) (dues_in (if is_volatile_state (object_at self.old.table o).state then ends.first_taken (queue_of o self.old.groups) self.old.tokens else self.old.tokens) q) }
        ensures ahead { self.new.tokens.ahead ≡ self.old.tokens.ahead - count_of o (inactive self.old.pages) }
    {
        let leaves = is_volatile(self.table.state(o));
        self.leave_group(leaves, o);
        let gone = self.pages.drop_object(o);
        self.tokens.departed(gone);
    }

    /// The same where the object lost its last mapper, and nothing where it did not.
    fn retire_if(&mut self, last: bool, o: ObjId)
        requires object { o < length self.old.table }
        requires sized { o < length self.old.pages.sizes }
        requires present { is_volatile_state (object_at self.old.table o).state ≡ true → IsSome (place_of o self.old.groups) }
        requires token { (q : AQueue) → queue_of o self.old.groups ≡ Some q → 0 < length (dues_in self.old.tokens q) }
        requires ahead { count_of o (inactive self.old.pages) ≤ self.old.tokens.ahead }
        ensures table { self.new.table ≡ self.old.table }
        ensures same_pages { last ≡ false → self.new.pages ≡ self.old.pages }
        ensures same_groups { last ≡ false → self.new.groups ≡ self.old.groups }
        ensures same_tokens { last ≡ false → self.new.tokens ≡ self.old.tokens }
        ensures frames { last ≡ true → self.new.pages.frames ≡ self.old.pages.frames }
        ensures sizes { last ≡ true → self.new.pages.sizes ≡ self.old.pages.sizes }
        ensures queues { last ≡ true → self.new.pages.queues ≡ without_object o (slice_index_or self.old.pages.sizes o 0) self.old.pages.queues }
        ensures marks { last ≡ true → (key : ℕ) → is_marked self.new.pages key ≡ (is_marked self.old.pages key && not (is_of_first o (slice_index_or self.old.pages.sizes o 0) key)) }
        ensures groups { last ≡ true → self.new.groups ≡ (if is_volatile_state (object_at self.old.table o).state then map (without o) self.old.groups else self.old.groups) }
        ensures dues { last ≡ true → (q : AQueue) → dues_in self.new.tokens q ≡ lowered_by (count_of o (inactive self.old.pages)) (dues_in (if is_volatile_state (object_at self.old.table o).state then ends.first_taken (queue_of o self.old.groups) self.old.tokens else self.old.tokens) q) }
        ensures ahead { last ≡ true → self.new.tokens.ahead ≡ self.old.tokens.ahead - count_of o (inactive self.old.pages) }
    {
        if last {
            self.retire(o);
        }
    }
}

impl TaskParts {
    /// The account of a task is no longer live, the task leaves its band, and it counts no more.
    fn end(&mut self, t: TaskId)
        requires accounts { t < length self.old.ledgers }
        requires ages { t < length self.old.ages.delays }
        ensures ledgers { self.new.ledgers ≡ set self.old.ledgers t (record (account_of self.old.ledgers t) { live = false }) }
        ensures wishes { self.new.wishes.items ≡ self.old.wishes.items }
        ensures bands { self.new.bands ≡ removed self.old.bands t }
        ensures delays { self.new.ages.delays ≡ self.old.ages.delays }
        ensures here { count_at self.new.ages t ≡ None }
        ensures others { (u : ℕ) → nat_eq u t ≡ false → count_at self.new.ages u ≡ count_at self.old.ages u }
    {
        self.ages.are_paired();
        self.ledgers.end(t);
        self.bands.remove(t);
        self.ages.stop(t);
    }
}

impl Parts {
    /// A task ceases to map an object: its charge goes to the next owner, and where the task was the last one
    /// that mapped it, the object is retired.
    fn leave(&mut self, o: ObjId, t: TaskId)
        ghost past: { List Entry }
        requires over { StandsOver (values self.old) past }
        requires object { o < length self.old.boot.objects }
        requires maps { maps self.old.boot past o t ≡ true }
        ensures over { (who : ℕ) → task_by self.old.boot who ≡ Some t → StandsOver (values self.new) (unmap_entry who o ∷ past) }
        ensures boot { self.new.boot ≡ self.old.boot }
        ensures bands { self.new.tasks.bands ≡ self.old.tasks.bands }
        ensures ages { self.new.tasks.ages ≡ self.old.tasks.ages }
        ensures wishes { self.new.tasks.wishes.items ≡ self.old.tasks.wishes.items }
    {
        self.boot.valid();
        self.objects.groups.are_groups();
        self.objects.table.is_object(o);
        let charge = self.objects.charge(o);
        let before = self.objects.table.owner(o);
        relieve(&mut self.tasks.ledgers, before, &charge);
        let last = self.objects.table.unmap(o, t);
        let after = self.objects.table.owner(o);
        burden(&mut self.tasks.ledgers, after, &charge);
        self.objects.retire_if(last, o);
    }

    /// A task ceases to map an object, if it maps it.
    fn leave_if(&mut self, o: ObjId, t: TaskId)
        ghost past: { List Entry }
        requires over { StandsOver (values self.old) (ends.parted self.old.boot past t o) }
        requires object { o < length self.old.boot.objects }
        ensures over { StandsOver (values self.new) (ends.parted self.old.boot past t (o + 1)) }
        ensures boot { self.new.boot ≡ self.old.boot }
        ensures bands { self.new.tasks.bands ≡ self.old.tasks.bands }
        ensures ages { self.new.tasks.ages ≡ self.old.tasks.ages }
        ensures wishes { self.new.tasks.wishes.items ≡ self.old.tasks.wishes.items }
    {
        if self.objects.table.maps(o, t) {
            self.leave(o, t);
        }
    }

    /// A task ceases to map the objects that it maps, in the order of their numbers.
    fn leave_all(&mut self, t: TaskId)
        ghost past: { List Entry }
        requires over { StandsOver (values self.old) past }
        ensures over { StandsOver (values self.new) (ends.parted self.old.boot past t (length self.old.boot.objects)) }
        ensures boot { self.new.boot ≡ self.old.boot }
        ensures bands { self.new.tasks.bands ≡ self.old.tasks.bands }
        ensures ages { self.new.tasks.ages ≡ self.old.tasks.ages }
        ensures wishes { self.new.tasks.wishes.items ≡ self.old.tasks.wishes.items }
    {
        let count = self.boot.objects().len() as u32;
        for i in 0..count {
            let o = ObjId::new(i).unwrap();
            self.leave_if(o, t);
        }
    }

    /// A task ends: it ceases to map its objects, its account is no longer live, it leaves its band, and it
    /// counts no more.
    fn end(&mut self, t: TaskId)
        ghost past: { List Entry }
        requires stands { Stands (values self.old) past }
        requires task { t < length self.old.boot.tasks }
        ensures stands { (e : Entry) → IsEnding self.old.boot e past t → IsLegal self.old.boot (e ∷ past) → Stands (values self.new) (e ∷ past) }
        ensures boot { self.new.boot ≡ self.old.boot }
    {
        self.boot.valid();
        self.leave_all(t);
        self.tasks.end(t);
    }

    /// Unmap, where it is not refused.
    pub(crate) fn unmap(&mut self, who: ThreadId, o: ObjId) -> Reply
        ghost past: { List Entry }
        requires stands { Stands (values self.old) past }
        requires fits { IsTrue (fits self.old.boot who (Unmap o)) }
        requires accepted { refusal self.old.boot past who (Unmap o) ≡ None }
        ensures reply { result ≡ answer self.old.boot past who (Unmap o) }
        ensures stands { Stands (values self.new) (entry_of who (Unmap o) result ∷ past) }
        ensures boot { self.new.boot ≡ self.old.boot }
    {
        self.boot.valid();
        let t = task_of(&self.boot, who).unwrap();
        self.leave(o, t);
        Reply::Unmapped
    }

    /// Exit, where it is not refused.
    pub(crate) fn exit(&mut self, who: ThreadId) -> Reply
        ghost past: { List Entry }
        requires stands { Stands (values self.old) past }
        requires fits { IsTrue (fits self.old.boot who Exit) }
        requires accepted { refusal self.old.boot past who Exit ≡ None }
        ensures reply { result ≡ answer self.old.boot past who Exit }
        ensures stands { Stands (values self.new) (entry_of who Exit result ∷ past) }
        ensures boot { self.new.boot ≡ self.old.boot }
    {
        self.boot.valid();
        let t = task_of(&self.boot, who).unwrap();
        self.end(t);
        Reply::Exited
    }

    /// Jetsam, where the verdict is that a task is killed.
    fn kill(&mut self, who: ThreadId, t: TaskId, cause: Cause) -> Reply
        ghost past: { List Entry }
        requires stands { Stands (values self.old) past }
        requires fits { IsTrue (fits self.old.boot who Jetsam) }
        requires decided { answer self.old.boot past who Jetsam ≡ Killed t cause }
        requires live { (account_of self.old.tasks.ledgers t).live ≡ true }
        ensures reply { result ≡ answer self.old.boot past who Jetsam }
        ensures stands { Stands (values self.new) (entry_of who Jetsam result ∷ past) }
        ensures boot { self.new.boot ≡ self.old.boot }
    {
        self.end(t);
        Reply::Killed(t, cause)
    }

    /// Jetsam, where it is not refused.
    pub(crate) fn jetsam(&mut self, who: ThreadId) -> Reply
        ghost past: { List Entry }
        requires stands { Stands (values self.old) past }
        requires fits { IsTrue (fits self.old.boot who Jetsam) }
        requires accepted { refusal self.old.boot past who Jetsam ≡ None }
        ensures reply { result ≡ answer self.old.boot past who Jetsam }
        ensures stands { Stands (values self.new) (entry_of who Jetsam result ∷ past) }
        ensures boot { self.new.boot ≡ self.old.boot }
    {
        match self.verdict() {
            JetsamVerdict::Quiet => self.stay_quiet(who),
            JetsamVerdict::Kill(t, cause) => self.kill(who, t, cause),
            JetsamVerdict::NoVictim => self.find_no_victim(who),
        }
    }
}
