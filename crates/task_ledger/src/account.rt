//! The account of one task.

ghost use Rattle.std.specs.Prelude.{◌≡◌};
ghost use Rattle.task_ledger.specs.Accounts.{AreAtMost, AreWithin, counts_less, counts_plus, first_account, over, present_limit};

use kern_ids::calls::Limit;
use kern_ids::replies::Counts;
use kernel_model::boot::TaskBoot;

/// What a task is charged, its limits, and what it is.
#[derive(Clone, Copy, PartialEq, Eq, Debug)]
pub struct Account {
    /// The pages that count for the task.
    pub counts: Counts,
    /// The limit while it is active.
    pub when_active: Limit,
    /// The limit while it is inactive.
    pub when_inactive: Limit,
    /// Jetsam spares it but for a fatal limit.
    pub internal: bool,
    pub active: bool,
    pub live: bool,
}

/// Whether a task's footprint is greater than its limit, and of which kind that limit is.
#[derive(Clone, Copy, PartialEq, Eq, Debug)]
pub enum Over {
    /// It isn't greater.
    Within,
    /// It is greater than a limit that isn't fatal.
    Soft,
    /// It is greater than a fatal limit.
    Hard,
}

/// The account of a task at the start.
pub(crate) fn first_account(task: &TaskBoot) -> Account
    ensures { result ≡ first_account task.now }
{
    Account {
        counts: Counts {
            res_non: 0,
            res_vol: 0,
            com_non: 0,
            com_vol: 0,
            footprint: 0,
        },
        when_active: task.active,
        when_inactive: task.inactive,
        internal: task.internal,
        active: false,
        live: true,
    }
}

/// Counts with others added.
pub(crate) fn plus(a: &Counts, b: &Counts) -> Counts
    requires { AreWithin (counts_plus a.now b.now) }
    ensures { result ≡ counts_plus a.now b.now }
{
    Counts {
        res_non: a.res_non + b.res_non,
        res_vol: a.res_vol + b.res_vol,
        com_non: a.com_non + b.com_non,
        com_vol: a.com_vol + b.com_vol,
        footprint: a.footprint + b.footprint,
    }
}

/// Counts with others taken away.
pub(crate) fn less(a: &Counts, b: &Counts) -> Counts
    requires { AreAtMost b.now a.now }
    ensures { result ≡ counts_less a.now b.now }
{
    Counts {
        res_non: a.res_non - b.res_non,
        res_vol: a.res_vol - b.res_vol,
        com_non: a.com_non - b.com_non,
        com_vol: a.com_vol - b.com_vol,
        footprint: a.footprint - b.footprint,
    }
}

impl Account {
    /// The limit of the task's present activity.
    fn present_limit(&self) -> Limit
        ensures { result ≡ present_limit self.now }
    {
        if self.active {
            self.when_active
        } else {
            self.when_inactive
        }
    }

    /// Whether the footprint is greater than the present limit, and of which kind that limit is.
    pub(crate) fn over(&self) -> Over
        ensures { result ≡ over self.now }
    {
        let limit = self.present_limit();
        if self.counts.footprint <= limit.pages {
            Over::Within
        } else if limit.fatal {
            Over::Hard
        } else {
            Over::Soft
        }
    }
}
