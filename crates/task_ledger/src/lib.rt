//! What each task is charged and allowed. All memory is taken at the start.
#![tactic(auto)]

ghost use Rattle.std.specs.Prelude.{◌≡◌, ◌<◌, false, length, map, set, All, IfOk};
ghost use Rattle.task_ledger.specs.Accounts.{account_of, first_account, counts_plus, counts_less, with_counts, over, IsSummed, AreWithin, AreAtMost, IsSound};

pub mod account;

use account::{Account, Over, first_account, less, plus};
use kern_ids::calls::Limit;
use kern_ids::entries::NoMemory;
use kern_ids::ids::TaskId;
use kern_ids::replies::Counts;
use kernel_model::boot::TaskBoot;
use std::alloc::Global;
use std::marker::Model;

/// The accounts of the tasks, from task 0 on.
#[derive(Drop)]
pub struct Ledgers {
    accounts: Vec<Account>,
}

impl Model for Ledgers {
    ghost use Rattle.std.specs.Prelude.{List, All};
    ghost use Rattle.task_ledger.specs.declared.account.Account.{Account as AnAccount};
    ghost use Rattle.task_ledger.specs.Accounts.{IsSound};

    ghost Value = { List AnAccount };

    ghost view = { λ a. a.accounts.items };

    ghost invariant = { λ a. All IsSound a.accounts.items };
}

impl Ledgers {
    /// An account for each task: charged nothing, with the limits and the mark of its boot, not active, live.
    pub fn new(alloc: Global, tasks: &[TaskBoot]) -> Result<Ledgers, NoMemory>
        ensures { IfOk result (λ made. made ≡ map first_account tasks.now) }
    {
        let accounts: Vec<Account> = tasks
            .iter()
            .map(first_account)
            .collect(alloc)
            .map_err(|_| NoMemory)?;
        Ok(Ledgers { accounts })
    }

    /// What is true of all accounts, for a proof that needs it.
    pub fn are_sound(&self)
        ensures { All IsSound self.now }
    {
        let _accounts = &self.accounts;
    }

    /// Charges a task for pages.
    pub fn add(&mut self, t: TaskId, c: &Counts)
        requires task { t < length self.old }
        requires summed { IsSummed c.now }
        requires within { AreWithin (counts_plus (account_of self.old t).counts c.now) }
        ensures { self.new ≡ with_counts self.old t (counts_plus (account_of self.old t).counts c.now) }
    {
        let at = t.get() as usize;
        self.accounts[at].counts = plus(&self.accounts[at].counts, c);
    }

    /// Takes pages that a task was charged for off its account.
    pub fn take(&mut self, t: TaskId, c: &Counts)
        requires task { t < length self.old }
        requires summed { IsSummed c.now }
        requires charged { AreAtMost c.now (account_of self.old t).counts }
        ensures { self.new ≡ with_counts self.old t (counts_less (account_of self.old t).counts c.now) }
    {
        let at = t.get() as usize;
        self.accounts[at].counts = less(&self.accounts[at].counts, c);
    }

    /// Gives a task other limits.
    pub fn set_limits(&mut self, t: TaskId, active: Limit, inactive: Limit)
        requires task { t < length self.old }
        ensures { self.new ≡ set self.old t (record (account_of self.old t) { when_active = active; when_inactive = inactive }) }
    {
        let at = t.get() as usize;
        self.accounts[at] = Account {
            when_active: active,
            when_inactive: inactive,
            ..self.accounts[at]
        };
    }

    /// Makes a task active or inactive. Answers whether it was active.
    pub fn set_active(&mut self, t: TaskId, on: bool) -> bool
        requires task { t < length self.old }
        ensures was { result ≡ (account_of self.old t).active }
        ensures accounts { self.new ≡ set self.old t (record (account_of self.old t) { active = on }) }
    {
        let at = t.get() as usize;
        let was = self.accounts[at].active;
        self.accounts[at].active = on;
        was
    }

    /// A task is live no more. The rest of its account stays.
    pub fn end(&mut self, t: TaskId)
        requires task { t < length self.old }
        ensures { self.new ≡ set self.old t (record (account_of self.old t) { live = false }) }
    {
        self.accounts[t.get() as usize].live = false;
    }

    /// The pages that count for a task.
    pub fn counts(&self, t: TaskId) -> Counts
        requires task { t < length self.now }
        ensures value { result ≡ (account_of self.now t).counts }
        ensures within { AreWithin result }
        ensures summed { IsSummed result }
    {
        self.accounts[t.get() as usize].counts
    }

    /// Whether the footprint of a task is greater than the limit of its present activity, and of which kind
    /// that limit is.
    pub fn over(&self, t: TaskId) -> Over
        requires task { t < length self.now }
        ensures { result ≡ over (account_of self.now t) }
    {
        self.accounts[t.get() as usize].over()
    }

    /// Whether a task is live.
    pub fn is_live(&self, t: TaskId) -> bool
        requires task { t < length self.now }
        ensures { result ≡ (account_of self.now t).live }
    {
        self.accounts[t.get() as usize].live
    }

    /// Whether a task is internal.
    pub fn is_internal(&self, t: TaskId) -> bool
        requires task { t < length self.now }
        ensures { result ≡ (account_of self.now t).internal }
    {
        self.accounts[t.get() as usize].internal
    }

    /// Whether a task is active.
    pub fn is_active(&self, t: TaskId) -> bool
        requires task { t < length self.now }
        ensures { result ≡ (account_of self.now t).active }
    {
        self.accounts[t.get() as usize].active
    }
}
