//! The accepted calls that change the tasks alone: their limits, bands, activity and ages.

ghost use Rattle.std.specs.Prelude.{◌≡◌, ◌∷◌, List, IsTrue, None};
ghost use Rattle.kern_ids.specs.declared.entries.Entry.{Entry};
ghost use Rattle.kern_ids.specs.declared.calls.Call.TheVariants.{Active as SetActive, SetBand, SetLimits, Tick};
ghost use Rattle.kernel_model.specs.Answers.{answer, refusal};
ghost use Rattle.kernel_model.specs.Histories.{fits};
ghost use Rattle.kernel_tables.specs.Values.{values, entry_of};
ghost use Rattle.kernel_tables.specs.Stands.{Stands};

use crate::parts::Parts;
use crate::placings::ageing_of;
use kern_ids::calls::Limit;
use kern_ids::ids::{Band, TaskId, ThreadId};
use kern_ids::replies::Reply;
use kernel_model::events::task_of;

impl Parts {
    /// SetLimits, where it is not refused.
    pub(crate) fn set_limits(
        &mut self,
        who: ThreadId,
        t: TaskId,
        active: Limit,
        inactive: Limit,
    ) -> Reply
        ghost past: { List Entry }
        requires stands { Stands (values self.old) past }
        requires fits { IsTrue (fits self.old.boot who (SetLimits t active inactive)) }
        requires accepted { refusal self.old.boot past who (SetLimits t active inactive) ≡ None }
        ensures reply { result ≡ answer self.old.boot past who (SetLimits t active inactive) }
        ensures stands { Stands (values self.new) (entry_of who (SetLimits t active inactive) result ∷ past) }
        ensures boot { self.new.boot ≡ self.old.boot }
    {
        self.tasks.ledgers.set_limits(t, active, inactive);
        Reply::Limited
    }

    /// SetBand, where it is not refused.
    pub(crate) fn set_band(&mut self, who: ThreadId, t: TaskId, band: Band) -> Reply
        ghost past: { List Entry }
        requires stands { Stands (values self.old) past }
        requires fits { IsTrue (fits self.old.boot who (SetBand t band)) }
        requires accepted { refusal self.old.boot past who (SetBand t band) ≡ None }
        ensures reply { result ≡ answer self.old.boot past who (SetBand t band) }
        ensures stands { Stands (values self.new) (entry_of who (SetBand t band) result ∷ past) }
        ensures boot { self.new.boot ≡ self.old.boot }
    {
        let ageing = ageing_of(&self.boot, t);
        self.tasks.set_wish(t, band, ageing);
        Reply::Banded
    }

    /// Active, where it is not refused.
    pub(crate) fn set_active(&mut self, who: ThreadId, on: bool) -> Reply
        ghost past: { List Entry }
        requires stands { Stands (values self.old) past }
        requires fits { IsTrue (fits self.old.boot who (SetActive on)) }
        requires accepted { refusal self.old.boot past who (SetActive on) ≡ None }
        ensures reply { result ≡ answer self.old.boot past who (SetActive on) }
        ensures stands { Stands (values self.new) (entry_of who (SetActive on) result ∷ past) }
        ensures boot { self.new.boot ≡ self.old.boot }
    {
        self.boot.valid();
        let t = task_of(&self.boot, who).unwrap();
        let ageing = ageing_of(&self.boot, t);
        let moves = self.tasks.moves(t, on);
        let was = self.tasks.ledgers.set_active(t, on);
        self.tasks.place_if(moves, t, ageing, !on);
        Reply::Was(was)
    }

    /// Tick. It is never refused.
    pub(crate) fn tick(&mut self, who: ThreadId) -> Reply
        ghost past: { List Entry }
        requires stands { Stands (values self.old) past }
        requires fits { IsTrue (fits self.old.boot who Tick) }
        requires accepted { refusal self.old.boot past who Tick ≡ None }
        ensures reply { result ≡ answer self.old.boot past who Tick }
        ensures stands { Stands (values self.new) (entry_of who Tick result ∷ past) }
        ensures boot { self.new.boot ≡ self.old.boot }
    {
        self.boot.valid();
        let line = self.tasks.tick();
        Reply::Aged(line)
    }
}
