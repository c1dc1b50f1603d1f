//! The kernel of one thread.

ghost use Rattle.std.specs.Prelude.{◌≡◌, ◌≤◌, ◌<◌, ◌^◌, ◌-◌, ◌++◌, ◌∷◌, [], length, reverse, IsTrue, IsOk, IfOk, OnOk};
ghost use Rattle.kernel_model.specs.Answers.{answer};
ghost use Rattle.kernel_model.specs.Histories.{fits, Legal};
ghost use Rattle.kernel_model.specs.Pages.{free};
ghost use Rattle.kernel_tables.specs.Stands.{Stands};
ghost use Rattle.kernel_core.specs.Kernels.{SeesBytes};
ghost use Rattle.kernel_core.specs.Need.{need};

use crate::log::{Log, MOST};
use crate::need::{Need, named};
use crate::over::{free_over, purged_over, step_over};
use kern_ids::calls::Call;
use kern_ids::entries::NoMemory;
use kern_ids::ids::ThreadId;
use kern_ids::lines::ByteLine;
use kern_ids::replies::Reply;
use kernel_model::boot::Boot;
use kernel_tables::tables::Tables;
use std::alloc::Global;
use std::marker::Model;

/// What it began with, a log with a legal history, and room for more entries. Its answers come from tables
/// that represent the history, and never from the entries.
#[derive(Drop)]
pub struct Kernel<L: Log> {
    tables: Tables,
    log: L,
    /// For how many more entries there is room.
    room: usize,
}

impl<L: Log> Model for Kernel<L> {
    ghost use Rattle.kernel_core.specs.Kernels.{KernelView, KeepsHistory};

    ghost Value = { KernelView };

    ghost view = { λ k. record { boot = k.tables.boot; history = L.list k.log; spare = k.room } };

    ghost invariant = { λ k. KeepsHistory k.tables (L.list k.log) (L.spare k.log) k.room };
}

impl<L: Log> Kernel<L> {
    /// A kernel over a log with no entries.
    pub fn boot(alloc: Global, boot: &Boot, log: L) -> Result<Kernel<L>, NoMemory>
        requires { L.list log ≡ [] }
        ensures boot { IfOk result (λ k. k.boot ≡ boot.now) }
        ensures empty { IfOk result (λ k. k.history ≡ []) }
    {
        let tables = Tables::boot(alloc, boot)?;
        Ok(Kernel {
            tables,
            log,
            room: 0,
        })
    }

    /// How many entries the history has.
    pub fn len(&self) -> usize
        ensures { result ≡ length self.now.history }
    {
        self.log.count()
    }

    /// For how many more entries there is room.
    pub fn spare(&self) -> usize
        ensures { result ≡ self.now.spare }
    {
        self.room
    }

    /// The log, which has the history.
    pub fn log(&self) -> &L
        ensures { L.list result.now ≡ self.now.history }
    {
        &self.log
    }

    /// The tables, which represent the history.
    pub fn tables(&self) -> &Tables
        ensures stands { Stands result.now (reverse self.now.history) }
        ensures boot { result.now.boot ≡ self.now.boot }
    {
        &self.tables
    }

    /// The history is legal.
    pub fn legal(&self)
        ensures { Legal self.now.boot self.now.history }
    {
        let _tables = &self.tables;
    }

    /// Makes room for n more entries, and takes no memory where there is room. A history has at most 2^32
    /// entries.
    pub fn reserve(&mut self, n: usize) -> Result<(), NoMemory>
        ensures room { OnOk result (n ≤ self.new.spare) }
        ensures ready { n ≤ self.old.spare → IsOk result }
        ensures kept { self.old.spare ≤ self.new.spare }
        ensures boot { self.new.boot ≡ self.old.boot }
        ensures history { self.new.history ≡ self.old.history }
    {
        if n <= self.room {
            return Ok(());
        }
        let count = self.log.count();
        if MOST < count || MOST - count < n {
            return Err(NoMemory);
        }
        self.log.make_room(n)?;
        self.room = n;
        Ok(())
    }

    /// The free frames. Takes no memory.
    pub fn free(&self) -> u64
        ensures value { result ≡ free self.now.boot (reverse self.now.history) }
        ensures small { result < 2 ^ 32 }
    {
        u64::from(free_over(&self.tables, &self.log))
    }

    /// The log alone. Takes no memory.
    pub fn into_log(self) -> L
        ensures { L.list result ≡ self.history }
    {
        let Kernel {
            tables: _,
            log,
            room: _,
        } = self;
        log
    }

    /// The object whose bytes the call reads or may change, if it were made now: one that it names, or the
    /// one that it would purge. Takes no memory.
    pub fn need(&self, who: ThreadId, call: &Call) -> Need
        requires { IsTrue (fits self.now.boot who call.now) }
        ensures { result ≡ need self.now.boot (reverse self.now.history) who call.now }
    {
        match named(call) {
            Need::Bytes(o) => Need::Bytes(o),
            Need::Nothing => match purged_over(&self.tables, &self.log, who, call) {
                Some(o) => Need::Bytes(o),
                None => Need::Nothing,
            },
        }
    }

    /// Makes a call: `reply` is then its answer, and its entry is the history's last. A Read in range is
    /// given the bytes that the history gives to its object. Takes no memory, and always answers.
    pub fn step(&mut self, who: ThreadId, call: &Call, seen: ByteLine, reply: &mut Reply)
        requires fits { IsTrue (fits self.old.boot who call.now) }
        requires room { 1 ≤ self.old.spare }
        requires seen { SeesBytes self.old.boot self.old.history call.now seen }
        ensures reply { reply.new ≡ answer self.old.boot (reverse self.old.history) who call.now }
        ensures entry { self.new.history ≡ self.old.history ++ record { who = who; call = call.now; reply = reply.new } ∷ [] }
        ensures boot { self.new.boot ≡ self.old.boot }
        ensures spare { self.new.spare ≡ self.old.spare - 1 }
        ensures legal { Legal self.new.boot self.new.history }
    {
        step_over(&mut self.tables, &self.log, who, call, seen, reply);
        self.log.append(who, call, reply);
        self.room -= 1;
    }
}
