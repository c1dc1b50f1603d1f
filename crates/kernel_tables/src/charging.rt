//! What the pages of an object count for the task that owns it.

ghost use Rattle.std.specs.Prelude.{◌≡◌, ◌≤◌, ◌<◌, ◌+◌, ◌^◌, ℕ, Some, length};
ghost use Rattle.vm_object.specs.Objects.{object_at};
ghost use Rattle.task_ledger.specs.Accounts.{account_of, counts_plus, AreAtMost, AreWithin, IsSummed};
ghost use Rattle.kernel_tables.specs.Charges as charges;

use crate::parts::ObjectParts;
use kern_ids::calls::State;
use kern_ids::ids::{ObjId, TaskId};
use kern_ids::replies::Counts;
use task_ledger::Ledgers;

/// What so many pages in frames and so many Stored ones of an object in this state count.
fn charge(state: State, framed: u32, stored: u32) -> Counts
    requires { framed + stored < 2 ^ 32 }
    ensures value { result ≡ charges.charge state framed stored }
    ensures summed { IsSummed result }
{
    match state {
        State::Nonvolatile => Counts {
            res_non: framed,
            res_vol: 0,
            com_non: stored,
            com_vol: 0,
            footprint: framed + stored,
        },
        State::Volatile => Counts {
            res_non: 0,
            res_vol: framed,
            com_non: 0,
            com_vol: stored,
            footprint: 0,
        },
        State::Empty => Counts {
            res_non: 0,
            res_vol: 0,
            com_non: 0,
            com_vol: 0,
            footprint: 0,
        },
    }
}

impl ObjectParts {
    /// What an object counts for its owner.
    pub(crate) fn charge(&self, o: ObjId) -> Counts
        requires object { o < length self.now.table }
        requires sized { o < length self.now.pages.sizes }
        requires framed { charges.framed_of self.now.pages o ≤ 256 }
        requires stored { charges.stored_of self.now.pages o ≤ 256 }
        ensures value { result ≡ charges.charge (object_at self.now.table o).state (charges.framed_of self.now.pages o) (charges.stored_of self.now.pages o) }
        ensures summed { IsSummed result }
    {
        let places = self.pages.object_counts(o);
        charge(
            self.table.state(o),
            places.active + places.inactive,
            places.stored,
        )
    }
}

/// Takes what an object counts off its owner's account, if it has an owner.
pub(crate) fn relieve(ledgers: &mut Ledgers, owner: Option<TaskId>, c: &Counts)
    requires task { (t : ℕ) → owner ≡ Some t → t < length ledgers.old }
    requires summed { IsSummed c.now }
    requires charged { (t : ℕ) → owner ≡ Some t → AreAtMost c.now (account_of ledgers.old t).counts }
    ensures { ledgers.new ≡ charges.relieved owner c.now ledgers.old }
{
    if let Some(t) = owner {
        ledgers.take(t, c);
    }
}

/// Charges the owner of an object, if it has one, for what the object counts.
pub(crate) fn burden(ledgers: &mut Ledgers, owner: Option<TaskId>, c: &Counts)
    requires task { (t : ℕ) → owner ≡ Some t → t < length ledgers.old }
    requires summed { IsSummed c.now }
    requires within { (t : ℕ) → owner ≡ Some t → AreWithin (counts_plus (account_of ledgers.old t).counts c.now) }
    ensures { ledgers.new ≡ charges.burdened owner c.now ledgers.old }
{
    if let Some(t) = owner {
        ledgers.add(t, c);
    }
}
