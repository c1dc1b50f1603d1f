//! A kernel with the bodies of its objects.

ghost use Rattle.std.specs.Prelude.{◌≡◌, ◌++◌, ◌∷◌, [], length, reverse, IsTrue, IfOk, OnOk, OnErr, All};
ghost use Rattle.kernel_model.specs.Answers.{answer};
ghost use Rattle.kernel_model.specs.Histories.{fits, Legal};
ghost use Rattle.kernel_model.specs.Turns.{run_from};
ghost use Rattle.kernel_tables.specs.Stands.{Stands};
ghost use Rattle.kernel_core.specs.Runs.{FitsIn, HasRunSome};

use crate::effect::{empty_bodies, needed_number};
use crate::kernel::Kernel;
use crate::log::Log;
use crate::one_steps::{step_alone, step_with};
use kern_ids::calls::Call;
use kern_ids::entries::NoMemory;
use kern_ids::ids::ThreadId;
use kern_ids::replies::Reply;
use kernel_model::boot::Boot;
use kernel_tables::tables::Tables;
use page_store::Body;
use std::alloc::Global;
use std::marker::Model;

/// A kernel, and a body for each object with the bytes that the history gives to it. Over a log of which only
/// proofs know the entries it is what a history is replayed on.
#[derive(Drop)]
pub struct OneThread<L: Log> {
    boot: Boot,
    kernel: Kernel<L>,
    bodies: Vec<Body>,
}

impl<L: Log> Model for OneThread<L> {
    ghost use Rattle.std.specs.Prelude.{◌≡◌};
    ghost use Rattle.kernel_core.specs.OneThreads.{OneThreadView, HasBodies};

    ghost Value = { OneThreadView };

    ghost view = { λ k. record { boot = k.kernel.boot; history = k.kernel.history } };

    ghost invariant = { λ k. (k.kernel.boot ≡ k.boot) × HasBodies k.kernel.boot k.kernel.history k.bodies.items };
}

impl<L: Log> OneThread<L> {
    /// A kernel over a log with no entries, whose objects have no bytes.
    pub fn boot(alloc: Global, boot: &Boot, log: L) -> Result<OneThread<L>, NoMemory>
        requires { L.list log ≡ [] }
        ensures boot { IfOk result (λ k. k.boot ≡ boot.now) }
        ensures empty { IfOk result (λ k. k.history ≡ []) }
    {
        Ok(OneThread {
            bodies: empty_bodies(alloc, boot.objects().len())?,
            kernel: Kernel::boot(alloc, boot, log)?,
            boot: boot.copy(alloc)?,
        })
    }

    /// The kernel. Takes no memory.
    pub fn kernel(&self) -> &Kernel<L>
        ensures boot { result.now.boot ≡ self.now.boot }
        ensures history { result.now.history ≡ self.now.history }
    {
        &self.kernel
    }

    /// How many entries the history has.
    pub fn len(&self) -> usize
        ensures { result ≡ length self.now.history }
    {
        self.kernel.len()
    }

    /// The tables, which represent the history.
    pub fn tables(&self) -> &Tables
        ensures stands { Stands result.now (reverse self.now.history) }
        ensures boot { result.now.boot ≡ self.now.boot }
    {
        self.kernel.tables()
    }

    /// The history is legal.
    pub fn legal(&self)
        ensures { Legal self.now.boot self.now.history }
    {
        self.kernel.legal();
    }

    /// The log alone. Takes no memory.
    pub fn into_log(self) -> L
        ensures { L.list result ≡ self.history }
    {
        let OneThread {
            boot: _,
            kernel,
            bodies: _,
        } = self;
        kernel.into_log()
    }

    /// Makes a call: `reply` is then its answer, and its entry is the history's last. Without memory no entry
    /// is made, and `reply` is as it was.
    pub fn call(&mut self, who: ThreadId, call: &Call, reply: &mut Reply) -> Result<(), NoMemory>
        requires { IsTrue (fits self.old.boot who call.now) }
        ensures reply { OnOk result (reply.new ≡ answer self.old.boot (reverse self.old.history) who call.now) }
        ensures entry { OnOk result (self.new.history ≡ self.old.history ++ record { who = who; call = call.now; reply = reply.new } ∷ []) }
        ensures boot { self.new.boot ≡ self.old.boot }
        ensures unchanged { OnErr result (self.new ≡ self.old) }
        ensures reply_kept { OnErr result (reply.new ≡ reply.old) }
    {
        match needed_number(&self.kernel, who, call) {
            Some(o) => step_with(
                &self.boot,
                &mut self.kernel,
                &mut self.bodies,
                o,
                who,
                call,
                reply,
            ),
            None => step_alone(&mut self.kernel, who, call, reply),
        }
    }

    /// Makes these calls, one after the other. Without memory it stops, and the entries of the calls before
    /// are made.
    pub fn run_list(&mut self, calls: &[(ThreadId, Call)]) -> Result<(), NoMemory>
        requires { All (FitsIn self.old.boot) calls.now }
        ensures boot { self.new.boot ≡ self.old.boot }
        ensures ran { OnOk result (reverse self.new.history ≡ run_from self.old.boot (reverse self.old.history) calls.now) }
        ensures stopped { OnErr result (HasRunSome self.old self.new calls.now) }
    {
        let mut reply = Reply::Nothing;
        for turn in calls {
            self.call(turn.0, &turn.1, &mut reply)?;
        }
        Ok(())
    }
}
