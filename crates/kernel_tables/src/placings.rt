//! The tasks' own parts, as the calls that change the tasks alone change them.

ghost use Rattle.std.specs.Prelude.{◌≡◌, ◌<◌, ◌∷◌, ◌++◌, [], ℕ, List, Some, None, length, set, nat_eq, not, ◌&&◌, if◌then◌else◌, slice_index_or, false};
ghost use Rattle.link_list.specs.KeyLists.{list_at, without};
ghost use Rattle.task_ledger.specs.Accounts.{account_of};
ghost use Rattle.idle_ageing.specs.Ageing.{count_of};
ghost use Rattle.kernel_model.specs.Bands as bands;
ghost use Rattle.kernel_model.specs.Lists.{some_if};

use crate::parts::TaskParts;
use idle_ageing::Ages;
use kern_ids::ids::{Band, TaskId};
use kernel_model::boot::Boot;

/// The band in which a task ages.
pub(crate) fn ageing_of(boot: &Boot, t: TaskId) -> Band
    requires { t < length boot.now.tasks }
    ensures { result ≡ bands.of_task (λ task. task.ageing) boot.now t 0 }
{
    let tasks = boot.tasks();
    tasks[t.get() as usize].ageing
}

/// The band of a task that wishes a band and was not aged.
fn band_at(wish: Band, ageing: Band) -> Band
    ensures { result ≡ (if nat_eq wish 0 then ageing else wish) }
{
    if wish.get() == 0 { ageing } else { wish }
}

/// A task begins to count, or it counts no more.
fn recount(ages: &mut Ages, t: TaskId, counts: bool)
    requires { t < length ages.old.counts }
    ensures delays { ages.new.delays ≡ ages.old.delays }
    ensures counts { ages.new.counts ≡ set ages.old.counts t (some_if counts 0) }
{
    if counts {
        ages.restart(t);
    } else {
        ages.stop(t);
    }
}

/// Whether a task is made what it is not.
fn differs(was: bool, on: bool) -> bool
    ensures { result ≡ bands.differs was on }
{
    if was { !on } else { on }
}

impl TaskParts {
    /// A task leaves its band and goes to the tail of another, and begins to count there or counts no more.
    fn place(&mut self, t: TaskId, band: Band, counts: bool)
        requires { t < length self.old.ages.delays }
        ensures ledgers { self.new.ledgers ≡ self.old.ledgers }
        ensures wishes { self.new.wishes.items ≡ self.old.wishes.items }
        ensures bands { (b : ℕ) → b < 21 → list_at self.new.bands b ≡ without t (list_at self.old.bands b) ++ (if nat_eq band b then t ∷ [] else []) }
        ensures delays { self.new.ages.delays ≡ self.old.ages.delays }
        ensures here { count_of self.new.ages t ≡ some_if counts 0 }
        ensures others { (u : ℕ) → nat_eq u t ≡ false → count_of self.new.ages u ≡ count_of self.old.ages u }
    {
        self.bands.are_bands();
        self.ages.are_paired();
        self.bands.place(t, band);
        recount(&mut self.ages, t, counts);
    }

    /// A task wishes a band: it goes to its tail, or to that of its ageing band where it wishes band 0, and
    /// there it counts from now on while it is not active.
    pub(crate) fn set_wish(&mut self, t: TaskId, band: Band, ageing: Band)
        requires wishes { t < length self.old.wishes.items }
        requires accounts { t < length self.old.ledgers }
        requires ages { t < length self.old.ages.delays }
        ensures ledgers { self.new.ledgers ≡ self.old.ledgers }
        ensures wishes { self.new.wishes.items ≡ set self.old.wishes.items t band }
        ensures bands { (b : ℕ) → b < 21 → list_at self.new.bands b ≡ without t (list_at self.old.bands b) ++ (if nat_eq (if nat_eq band 0 then ageing else band) b then t ∷ [] else []) }
        ensures delays { self.new.ages.delays ≡ self.old.ages.delays }
        ensures here { count_of self.new.ages t ≡ some_if (not (account_of self.old.ledgers t).active && nat_eq band 0) 0 }
        ensures others { (u : ℕ) → nat_eq u t ≡ false → count_of self.new.ages u ≡ count_of self.old.ages u }
    {
        let counts = !self.ledgers.is_active(t) && band.get() == 0;
        self.wishes[t.get() as usize] = band;
        self.place(t, band_at(band, ageing), counts);
    }

    /// Whether a task moves in the bands where it is made active or inactive: its activity changes, and it
    /// wishes band 0.
    pub(crate) fn moves(&self, t: TaskId, on: bool) -> bool
        requires accounts { t < length self.now.ledgers }
        requires wishes { t < length self.now.wishes.items }
        ensures { result ≡ (bands.differs (account_of self.now.ledgers t).active on && nat_eq (slice_index_or self.now.wishes.items t 0) 0) }
    {
        differs(self.ledgers.is_active(t), on) && self.wishes[t.get() as usize].get() == 0
    }

    /// Where it moves, a task goes to the tail of a band, and begins to count there or counts no more.
    pub(crate) fn place_if(&mut self, moves: bool, t: TaskId, band: Band, counts: bool)
        requires { t < length self.old.ages.delays }
        ensures ledgers { self.new.ledgers ≡ self.old.ledgers }
        ensures wishes { self.new.wishes.items ≡ self.old.wishes.items }
        ensures bands { (b : ℕ) → b < 21 → list_at self.new.bands b ≡ (if moves then without t (list_at self.old.bands b) ++ (if nat_eq band b then t ∷ [] else []) else list_at self.old.bands b) }
        ensures delays { self.new.ages.delays ≡ self.old.ages.delays }
        ensures here { count_of self.new.ages t ≡ (if moves then some_if counts 0 else count_of self.old.ages t) }
        ensures others { (u : ℕ) → nat_eq u t ≡ false → count_of self.new.ages u ≡ count_of self.old.ages u }
    {
        if moves {
            self.place(t, band, counts);
        }
    }
}
