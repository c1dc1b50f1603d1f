//! The accepted calls that set the state of an object.

ghost use Rattle.std.specs.Prelude.{◌≡◌, ◌∷◌, ◌<◌, ◌&&◌, ℕ, List, IfSome, IsNone, IsSome, IsTrue, None, Some, false, if◌then◌else◌, length, map, not, true};
ghost use Rattle.kern_ids.specs.StateWord.{decoded};
ghost use Rattle.kern_ids.specs.declared.calls.Call.TheVariants.{SetState};
ghost use Rattle.kern_ids.specs.declared.calls.Queue.{Queue as AQueue};
ghost use Rattle.kern_ids.specs.declared.calls.Queue.TheVariants.{Obsolete};
ghost use Rattle.kern_ids.specs.declared.entries.Entry.{Entry};
ghost use Rattle.kernel_model.specs.Answers.{answer, refusal};
ghost use Rattle.kernel_model.specs.Contents.{is_ask_empty};
ghost use Rattle.kernel_model.specs.Groups.{is_volatile_state};
ghost use Rattle.kernel_model.specs.Histories.{fits};
ghost use Rattle.kernel_model.specs.State.{is_empty};
ghost use Rattle.kernel_tables.specs.Settings.{entered_at, token_added, token_taken};
ghost use Rattle.kernel_tables.specs.Stands.{Stands};
ghost use Rattle.kernel_tables.specs.Values.{entry_of, values};
ghost use Rattle.link_list.specs.KeyLists.{place_of, without};
ghost use Rattle.ripen_advance.specs.Queues.{dues_in};
ghost use Rattle.vm_object.specs.Objects.{object_at};

use crate::charging::{burden, relieve};
use crate::parts::Parts;
use kern_ids::calls::{Queue, State, Wish, decode_word};
use kern_ids::ids::{ObjId, ThreadId};
use kern_ids::replies::Reply;
use ripen_advance::TokenQueues;
use vm_object::answer::SetAnswer;
use volatile_groups::Groups;

/// An object leaves its group, where it is to.
fn leave_group(groups: &mut Groups, o: ObjId, leaves: bool)
    requires { leaves ≡ true → IsSome (place_of o groups.old) }
    ensures { groups.new ≡ (if leaves then map (without o) groups.old else groups.old) }
{
    if leaves {
        groups.remove(o);
    }
}

/// An object that is in no group enters one, where it is to.
fn enter_group(groups: &mut Groups, o: ObjId, done: &SetAnswer)
    requires absent { IsNone (place_of o groups.old) }
    requires group { (at : AQueue × ℕ) → done.now.enter ≡ Some at → at.1 < 8 }
    requires obsolete { (at : AQueue × ℕ) → done.now.enter ≡ Some at → at.0 ≡ Obsolete → at.1 ≡ 0 }
    ensures { groups.new ≡ entered_at done.now.enter o groups.old }
{
    if let Some(at) = done.enter {
        groups.enter(o, at.0, at.1);
    }
}

/// The first or the last token of the queue that an object leaves goes, or none.
fn take_token(tokens: &mut TokenQueues, done: &SetAnswer, from: Option<Queue>)
    requires { (q : AQueue) → from ≡ Some q → 0 < length (dues_in tokens.old q) }
    ensures { tokens.new ≡ token_taken done.now.first_goes done.now.last_goes from tokens.old }
{
    if let Some(q) = from {
        if done.first_goes {
            tokens.drop_first(q);
        } else if done.last_goes {
            tokens.drop_last(q);
        }
    }
}

/// A token is added to the queue that an object enters, where it is to.
fn add_token(tokens: &mut TokenQueues, done: &SetAnswer)
    requires { (at : AQueue × ℕ) → done.now.enter ≡ Some at → done.now.new_token ≡ true → length (dues_in tokens.old at.0) < 256 }
    ensures { tokens.new ≡ token_added done.now.new_token done.now.enter tokens.old }
{
    if let Some(at) = done.enter {
        if done.new_token {
            tokens.add(at.0);
        }
    }
}

/// The first token of an object's old queue goes.
fn take_first(tokens: &mut TokenQueues, from: Option<Queue>)
    requires { (q : AQueue) → from ≡ Some q → 0 < length (dues_in tokens.old q) }
    ensures { tokens.new ≡ token_taken true false from tokens.old }
{
    if let Some(q) = from {
        tokens.drop_first(q);
    }
}

/// Whether a state is VOLATILE.
fn is_volatile(state: State) -> bool
    ensures { result ≡ is_volatile_state state }
{
    match state {
        State::Volatile => true,
        _ => false,
    }
}

/// Whether an object in a state is emptied by what is asked.
fn is_emptied(state: State, wish: Wish) -> bool
    ensures { result ≡ (is_ask_empty wish && not (is_empty state)) }
{
    match wish {
        Wish::Empty => match state {
            State::Empty => false,
            _ => true,
        },
        _ => false,
    }
}

impl Parts {
    /// SetState, where it is not refused.
    pub(crate) fn set_state(&mut self, who: ThreadId, o: ObjId, word: u32) -> Reply
        ghost past: { List Entry }
        requires stands { Stands (values self.old) past }
        requires fits { IsTrue (fits self.old.boot who (SetState o word)) }
        requires accepted { refusal self.old.boot past who (SetState o word) ≡ None }
        ensures reply { result ≡ answer self.old.boot past who (SetState o word) }
        ensures stands { Stands (values self.new) (entry_of who (SetState o word) result ∷ past) }
        ensures boot { self.new.boot ≡ self.old.boot }
    {
        let wish = decode_word(word).unwrap();
        let state = self.objects.table.state(o);
        if is_emptied(state, wish) {
            self.set_emptied(who, o, word)
        } else {
            self.set_kept(who, o, word, wish)
        }
    }

    /// SetState, where it is not refused and empties the object.
    fn set_emptied(&mut self, who: ThreadId, o: ObjId, word: u32) -> Reply
        ghost past: { List Entry }
        requires stands { Stands (values self.old) past }
        requires fits { IsTrue (fits self.old.boot who (SetState o word)) }
        requires accepted { refusal self.old.boot past who (SetState o word) ≡ None }
        requires empties { IfSome (decoded word) (λ wish. (is_ask_empty wish && not (is_empty (object_at self.old.objects.table o).state)) ≡ true) }
        ensures reply { result ≡ answer self.old.boot past who (SetState o word) }
        ensures stands { Stands (values self.new) (entry_of who (SetState o word) result ∷ past) }
        ensures boot { self.new.boot ≡ self.old.boot }
    {
        self.boot.valid();
        self.objects.groups.are_groups();
        let state = self.objects.table.state(o);
        let from = self.objects.groups.queue_of(o);
        leave_group(&mut self.objects.groups, o, is_volatile(state));
        take_first(&mut self.objects.tokens, from);
        self.empty_object(o);
        Reply::Old(state)
    }

    /// SetState, where it is not refused and empties nothing.
    fn set_kept(&mut self, who: ThreadId, o: ObjId, word: u32, wish: Wish) -> Reply
        ghost past: { List Entry }
        requires stands { Stands (values self.old) past }
        requires fits { IsTrue (fits self.old.boot who (SetState o word)) }
        requires accepted { refusal self.old.boot past who (SetState o word) ≡ None }
        requires wish { decoded word ≡ Some wish }
        requires keeps { (is_ask_empty wish && not (is_empty (object_at self.old.objects.table o).state)) ≡ false }
        ensures reply { result ≡ answer self.old.boot past who (SetState o word) }
        ensures stands { Stands (values self.new) (entry_of who (SetState o word) result ∷ past) }
        ensures boot { self.new.boot ≡ self.old.boot }
    {
        self.boot.valid();
        self.objects.groups.are_groups();
        let from = self.objects.groups.queue_of(o);
        let owner = self.objects.table.owner(o);
        let before = self.objects.charge(o);
        relieve(&mut self.tasks.ledgers, owner, &before);
        let done = self.objects.table.set_state(o, wish, from);
        leave_group(&mut self.objects.groups, o, done.leave);
        enter_group(&mut self.objects.groups, o, &done);
        take_token(&mut self.objects.tokens, &done, from);
        add_token(&mut self.objects.tokens, &done);
        let after = self.objects.charge(o);
        let still = self.objects.table.owner(o);
        burden(&mut self.tasks.ledgers, still, &after);
        Reply::Old(done.old)
    }
}
