//! The slow kernel: it answers by looking through its entries.

ghost use Rattle.std.specs.Prelude.{◌≡◌, ◌<◌, ◌≤◌, ◌+◌, ◌++◌, ◌∷◌, [], reverse, length, map, IsTrue, IfOk, OnOk, OnErr};
ghost use Rattle.std.specs.List.{range_with_len};
ghost use Rattle.kernel_model.specs.Answers as spec;
ghost use Rattle.kernel_model.specs.Histories as histories;

use crate::answers::answer;
use kern_ids::calls::Call;
use kern_ids::entries::{Entry, EntryList, NoMemory};
use kern_ids::ids::ThreadId;
use kern_ids::replies::Reply;
use kernel_model::boot::Boot;
use std::alloc::Global;
use std::marker::Model;

/// A boot and a history, which is always legal.
#[derive(Drop)]
pub struct SlowKernel {
    boot: Boot,
    entries: EntryList,
    alloc: Global,
}

impl Model for SlowKernel {
    ghost use Rattle.std.specs.Prelude.{◌≡◌};
    ghost use Rattle.slow_kernel.specs.Slow.{Slow};

    ghost Value = { Slow };

    ghost use Rattle.kernel_model.specs.Histories.{Legal};

    ghost view = { λ k. record { boot = k.boot; list = k.entries.list } };

    ghost invariant = { λ k. Legal k.boot k.entries.list };
}

impl SlowKernel {
    /// A kernel with no entries.
    pub fn new(alloc: Global, boot: &Boot) -> Result<SlowKernel, NoMemory>
        ensures { IfOk result (λ k. k ≡ record { boot = boot.now; list = [] }) }
    {
        Ok(SlowKernel {
            boot: boot.copy(alloc)?,
            entries: EntryList::new(alloc),
            alloc,
        })
    }

    /// What the kernel began with.
    pub fn boot(&self) -> &Boot
        ensures { result.now ≡ self.now.boot }
    {
        &self.boot
    }

    /// The history.
    pub fn history(&self) -> &EntryList
        ensures { result.now.list ≡ self.now.list }
    {
        &self.entries
    }

    /// The history alone. Takes no memory.
    pub fn into_history(self) -> EntryList
        ensures { result.list ≡ self.list }
    {
        let SlowKernel {
            boot: _,
            entries,
            alloc: _,
        } = self;
        entries
    }

    /// The history is legal.
    pub fn legal(&self)
        ensures { histories.Legal self.now.boot self.now.list }
    {
        let _spare = self.entries.len();
    }

    /// The answer to a call.
    pub fn answer(&self, who: ThreadId, call: &Call) -> Result<Reply, NoMemory>
        requires { IsTrue (histories.fits self.now.boot who call.now) }
        ensures { IfOk result (λ reply. reply ≡ spec.answer self.now.boot (reverse self.now.list) who call.now) }
    {
        Ok(answer(self.alloc, &self.boot, self.entries.as_slice(), who, call)?)
    }

    /// Appends an entry.
    pub fn push(&mut self, e: Entry) -> Result<(), NoMemory>
        requires { histories.Legal self.old.boot (self.old.list ++ e ∷ []) }
        ensures boot { self.new.boot ≡ self.old.boot }
        ensures ok { OnOk result (self.new.list ≡ self.old.list ++ e ∷ []) }
        ensures err { OnErr result (self.new.list ≡ self.old.list) }
    {
        self.entries.reserve(1)?;
        self.entries.push(e);
        Ok(())
    }
}
