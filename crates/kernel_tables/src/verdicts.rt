//! Jetsam's verdict.

ghost use Rattle.std.specs.Prelude.{◌≡◌, ◌<◌, ◌∷◌, ℕ, List, IsTrue, None, slice_index_or};
ghost use Rattle.kern_ids.specs.declared.entries.Entry.{Entry};
ghost use Rattle.kern_ids.specs.declared.calls.Call.TheVariants.{Jetsam};
ghost use Rattle.kern_ids.specs.declared.replies.Reply.TheVariants.{Quiet as ToldQuiet, NoVictim as ToldNone};
ghost use Rattle.kernel_model.specs.Answers.{answer, refusal};
ghost use Rattle.kernel_model.specs.Histories.{fits};
ghost use Rattle.kernel_model.specs.Victims as victims;
ghost use Rattle.jetsam_pick.specs.Victims.{KillsLive};
ghost use Rattle.kernel_tables.specs.Values.{values, entry_of};
ghost use Rattle.kernel_tables.specs.Stands.{Stands};
ghost use Rattle.kernel_tables.specs.Verdicts.{reply_of};

use crate::parts::Parts;
use jetsam_pick::verdict::JetsamVerdict;
use kern_ids::ids::{Band, ThreadId};
use kern_ids::replies::Reply;

/// Every wish is the number of a band.
pub(crate) fn wishes_are_bands(wishes: &[Band])
    ensures { (t : ℕ) → slice_index_or wishes.now t 0 < 21 }
{
    for wish in wishes {
        let _number = wish.get();
    }
}

impl Parts {
    /// What jetsam does: whom it kills and for what, or why it kills nobody.
    pub(crate) fn verdict(&self) -> JetsamVerdict
        ghost past: { List Entry }
        requires { Stands (values self.now) past }
        ensures reply { reply_of result ≡ victims.victim self.now.boot past }
        ensures live { KillsLive self.now.tasks.ledgers result }
    {
        self.boot.valid();
        self.tasks.bands.are_bands();
        wishes_are_bands(&self.tasks.wishes);
        let counts = self.objects.pages.counts();
        jetsam_pick::victim(
            counts.free,
            self.boot.params().critical,
            &self.tasks.bands,
            &self.tasks.ledgers,
        )
    }

    /// Jetsam, where the verdict is that enough frames are free.
    pub(crate) fn stay_quiet(&self, who: ThreadId) -> Reply
        ghost past: { List Entry }
        requires stands { Stands (values self.now) past }
        requires fits { IsTrue (fits self.now.boot who Jetsam) }
        requires accepted { refusal self.now.boot past who Jetsam ≡ None }
        requires verdict { victims.victim self.now.boot past ≡ ToldQuiet }
        ensures reply { result ≡ answer self.now.boot past who Jetsam }
        ensures stands { Stands (values self.now) (entry_of who Jetsam result ∷ past) }
    {
        Reply::Quiet
    }

    /// Jetsam, where the verdict is that no task may be killed.
    pub(crate) fn find_no_victim(&self, who: ThreadId) -> Reply
        ghost past: { List Entry }
        requires stands { Stands (values self.now) past }
        requires fits { IsTrue (fits self.now.boot who Jetsam) }
        requires accepted { refusal self.now.boot past who Jetsam ≡ None }
        requires verdict { victims.victim self.now.boot past ≡ ToldNone }
        ensures reply { result ≡ answer self.now.boot past who Jetsam }
        ensures stands { Stands (values self.now) (entry_of who Jetsam result ∷ past) }
    {
        Reply::NoVictim
    }
}
