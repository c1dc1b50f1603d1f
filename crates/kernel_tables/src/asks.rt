//! The calls that only ask.

ghost use Rattle.std.specs.Prelude.{◌≡◌, ◌∷◌, List, IsTrue, Some, None};
ghost use Rattle.kern_ids.specs.declared.entries.Entry.{Entry};
ghost use Rattle.kern_ids.specs.declared.calls.Call.TheVariants.{Info as AskInfo, Purgeables as AskPurgeables, GetState as AskState, Ledger as AskLedger};
ghost use Rattle.kern_ids.specs.declared.replies.Reply.TheVariants.{Frames, Tokens};
ghost use Rattle.kernel_model.specs.Answers.{answer, refusal, frames_reply, tokens_reply};
ghost use Rattle.kernel_model.specs.Histories.{fits};
ghost use Rattle.kernel_tables.specs.Values.{values, entry_of};
ghost use Rattle.kernel_tables.specs.Stands.{Stands};

use crate::parts::Parts;
use crate::refusals::caller;
use kern_ids::calls::Call;
use kern_ids::ids::{ObjId, ThreadId};
use kern_ids::replies::{FrameCounts, Refusal, Reply, TokenCounts};

impl Parts {
    /// The free frames, the pages in each place, and how many entered and left the inactive queue.
    pub(crate) fn frame_counts(&self) -> FrameCounts
        ghost past: { List Entry }
        requires { Stands (values self.now) past }
        ensures { Frames result ≡ frames_reply self.now.boot past }
    {
        let counts = self.objects.pages.counts();
        FrameCounts {
            free: counts.free,
            active: counts.active,
            inactive: counts.inactive,
            stored: counts.stored,
            entered: self.entered,
            left: self.entered.saturating_sub(u64::from(counts.inactive)),
        }
    }

    /// The tokens of each queue.
    pub(crate) fn token_counts(&self) -> TokenCounts
        ghost past: { List Entry }
        requires { Stands (values self.now) past }
        ensures { Tokens result ≡ tokens_reply self.now.boot past }
    {
        self.objects.tokens.counts()
    }

    /// Info: the counts of frames.
    pub(crate) fn info(&self, who: ThreadId) -> Reply
        ghost past: { List Entry }
        requires stands { Stands (values self.now) past }
        requires fits { IsTrue (fits self.now.boot who AskInfo) }
        ensures reply { result ≡ answer self.now.boot past who AskInfo }
        ensures stands { Stands (values self.now) (entry_of who AskInfo result ∷ past) }
    {
        Reply::Frames(self.frame_counts())
    }

    /// Purgeables: the counts of tokens.
    pub(crate) fn purgeables(&self, who: ThreadId) -> Reply
        ghost past: { List Entry }
        requires stands { Stands (values self.now) past }
        requires fits { IsTrue (fits self.now.boot who AskPurgeables) }
        ensures reply { result ≡ answer self.now.boot past who AskPurgeables }
        ensures stands { Stands (values self.now) (entry_of who AskPurgeables result ∷ past) }
    {
        Reply::Tokens(self.token_counts())
    }

    /// GetState, where it is not refused: the state of the object.
    pub(crate) fn get_state(&self, who: ThreadId, o: ObjId) -> Reply
        ghost past: { List Entry }
        requires stands { Stands (values self.now) past }
        requires fits { IsTrue (fits self.now.boot who (AskState o)) }
        requires accepted { refusal self.now.boot past who (AskState o) ≡ None }
        ensures reply { result ≡ answer self.now.boot past who (AskState o) }
        ensures stands { Stands (values self.now) (entry_of who (AskState o) result ∷ past) }
    {
        self.boot.valid();
        Reply::Is(self.state(o))
    }

    /// Ledger, where it is not refused: what the task is charged.
    pub(crate) fn ledger(&self, who: ThreadId) -> Reply
        ghost past: { List Entry }
        requires stands { Stands (values self.now) past }
        requires fits { IsTrue (fits self.now.boot who AskLedger) }
        requires accepted { refusal self.now.boot past who AskLedger ≡ None }
        ensures reply { result ≡ answer self.now.boot past who AskLedger }
        ensures stands { Stands (values self.now) (entry_of who AskLedger result ∷ past) }
    {
        self.boot.valid();
        Reply::Pages(self.tasks.ledgers.counts(caller(&self.boot, who)))
    }

    /// A refused call.
    pub(crate) fn refused(&self, who: ThreadId, call: &Call, why: Refusal) -> Reply
        ghost past: { List Entry }
        requires stands { Stands (values self.now) past }
        requires fits { IsTrue (fits self.now.boot who call.now) }
        requires refused { refusal self.now.boot past who call.now ≡ Some why }
        ensures reply { result ≡ answer self.now.boot past who call.now }
        ensures stands { Stands (values self.now) (entry_of who call.now result ∷ past) }
    {
        Reply::Refused(why)
    }
}
