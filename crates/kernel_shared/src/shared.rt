//! The kernel and its calls under the lock.

ghost use Rattle.std.specs.Prelude.{◌≡◌, ℕ, ◌+◌, ◌<◌, ◌≤◌, eqb, ◌++◌, ◌∷◌, [], true, false, reverse, length, IsTrue, IfOk, OnOk, OnErr, MatchOption, Some, None};
ghost use Rattle.std.specs.List.{AllByRecursion, IsDistinct};
ghost use Rattle.kernel_model.specs.Pages.{free};
ghost use Rattle.kernel_model.specs.Histories.{fits, Legal};
ghost use Rattle.kernel_model.specs.Valid.{IsValidBoot};
ghost use Rattle.kernel_core.specs.Kernels.{SeesBytes};
ghost use Rattle.turn_lock.specs.Histories.{StartsWith, longer, entries_of, list_in};
ghost use Rattle.turn_lock.specs.Passes.{IsPassOf, HoldsNothing, IsNewPassOf, gathered_by, numbers_of, weight_of};
ghost use Rattle.kernel_shared.specs.Calls.{IsIdleOf, IsSamePass, HasMade, KnowsOwn, pass_count};
ghost use Rattle.kernel_shared.specs.Steps.{IsEntryMade, MayTouch, IsTried, IsLooked};
ghost use Rattle.kernel_core.specs.Touches.{NeedsAtMost, named_number, needed_number};

use crate::gate::{Gate, Point};
use crate::value::Core;
use kern_ids::calls::Call;
use kern_ids::entries::{EntryList, NoMemory};
use kern_ids::ids::ThreadId;
use kern_ids::lines::ByteLine;
use kern_ids::replies::Reply;
use kernel_core::effect::{
    apply, empty_bodies, look, named_number, needed_number, no_bytes, prepare,
};
use kernel_core::kernel::Kernel;
use kernel_model::boot::Boot;
use page_store::Body;
use std::alloc::Global;
use std::marker::Model;
use std::sync::Wait;
use turn_lock::{Turn, TwoLevel};

/// What one thread knows of the kernel, and holds of it.
pub type Pass = turn_lock::Pass<Core, Body>;

/// The passes of a kernel, one a thread.
pub type PassList = turn_lock::PassList<Core, Body>;

/// A kernel that threads share by reference.
#[derive(Drop)]
pub struct SharedKernel {
    boot: Boot,
    table: TwoLevel<Core, Body>,
}

impl Model for SharedKernel {
    ghost use Rattle.std.specs.Prelude.{◌≡◌, length};
    ghost use Rattle.kernel_model.specs.System.{System};
    ghost use Rattle.kernel_model.specs.Valid.{IsValidBoot};
    ghost use Rattle.turn_lock.specs.Passes.{TableView};
    ghost use Rattle.kernel_shared.specs.Calls.{pass_count};

    ghost Value = { TableView System };

    ghost view = { λ k. k.table };

    ghost invariant = { λ k. IsValidBoot k.boot × (k.table.base ≡ k.boot) × (k.table.objects ≡ length k.boot.objects) × (k.table.passes ≡ pass_count k.boot.sides) };
}

// What a call without an object came to: the entry was made, or the call needs this object.
enum Look {
    Made(Reply),
    Needs(u32),
}

// How many passes a kernel has: one a thread, and at least one.
fn passes_for(boot: &Boot) -> u32
    ensures count { result ≡ pass_count boot.now.sides }
    ensures some { 0 < result }
    ensures most { result ≤ 32 }
{
    let threads = boot.sides().len();
    if threads == 0 { 1 } else { threads as u32 }
}

// An object is needed, and it is not o.
fn needs_other(needed: Option<u32>, o: u32) -> bool
    ensures { result ≡ false → NeedsAtMost o needed }
{
    match needed {
        Some(x) => x != o,
        None => false,
    }
}

impl SharedKernel {
    /// A kernel with no entries, and its passes. The number of a pass is that of its thread.
    pub fn boot(alloc: Global, boot: &Boot) -> Result<(SharedKernel, PassList), NoMemory>
        ensures kernel { IfOk result (λ k. (k.0.base ≡ boot.now) × (k.0.passes ≡ pass_count boot.now.sides)) }
        ensures passes { IfOk result (λ k. (length k.1 ≡ k.0.passes) × AllByRecursion (IsNewPassOf k.0) k.1) }
    {
        boot.valid();
        let bodies = empty_bodies(alloc, boot.objects().len())?;
        let core = Core {
            kernel: Kernel::boot(alloc, boot, EntryList::new(alloc))?,
        };
        let passes = passes_for(boot);
        let boot = boot.copy(alloc)?;
        let (table, list) = TwoLevel::new(alloc, core, bodies, passes)?;
        Ok((SharedKernel { boot, table }, list))
    }

    // What it began with is in its ranges.
    fn valid(&self)
        ensures { IsValidBoot self.now.base }
    {
        self.boot.valid();
    }

    // The thread whose pass it is.
    fn thread_of(&self, pass: &Pass, call: &Call) -> ThreadId
        requires { IsTrue (fits self.now.base pass.now.number call.now) }
        ensures { result ≡ pass.now.number }
    {
        self.valid();
        match ThreadId::new(pass.number()) {
            Some(who) => who,
            None => unreachable!(),
        }
    }

    // Makes the entry of the call in the turn, and leaves the turn.
    fn make<G: Gate>(
        &self,
        gate: &G,
        pass: &mut Pass,
        turn: Turn<Core>,
        call: &Call,
        seen: ByteLine,
    ) -> Result<Reply, NoMemory>
        requires of { IsPassOf self.now pass.old }
        requires held { pass.old.turn ≡ true }
        requires value { (turn.kernel.boot ≡ self.now.base) × (turn.kernel.history ≡ pass.old.seen) }
        requires fits { IsTrue (fits self.now.base pass.old.number call.now) }
        requires seen { SeesBytes self.now.base pass.old.seen call.now seen }
        requires touches { MayTouch (needed_number self.now.base (reverse pass.old.seen) pass.old.number call.now) pass.old.object }
        ensures made { IfOk result (IsEntryMade self.now.base pass.old pass.new call.now) }
        ensures none { OnErr result (pass.new ≡ record pass.old { turn = false }) }
    {
        let mut turn = turn;
        let who = self.thread_of(pass, call);
        if turn.value().kernel.reserve(1).is_err() {
            self.table.leave(pass, turn);
            return Err(NoMemory);
        }
        let mut reply = Reply::Nothing;
        turn.value().kernel.step(who, call, seen, &mut reply);
        self.table.leave(pass, turn);
        gate.at(who, Point::AfterTurn);
        Ok(reply)
    }

    // Makes the call with no object where it needs none.
    fn first_look<R: Wait, G: Gate>(
        &self,
        rt: &R,
        gate: &G,
        pass: &mut Pass,
        call: &Call,
    ) -> Result<Look, NoMemory>
        requires idle { IsIdleOf self.now pass.old }
        requires fits { IsTrue (fits self.now.base pass.old.number call.now) }
        ensures kept { IsSamePass self.now pass.old pass.new }
        ensures looked { IfOk result (IsLooked self.now pass.old pass.new call.now) }
        ensures none { OnErr result (pass.new.mine ≡ pass.old.mine) }
    {
        let who = self.thread_of(pass, call);
        gate.at(who, Point::BeforeTurn);
        let mut turn = self.table.enter(rt, pass);
        match needed_number(&turn.value().kernel, who, call) {
            None => {
                let reply = self.make(gate, pass, turn, call, no_bytes())?;
                Ok(Look::Made(reply))
            }
            Some(o) => {
                self.table.leave(pass, turn);
                Ok(Look::Needs(o))
            }
        }
    }

    // Makes the call with the object that it needed, unless it needs another one now.
    fn attempt<R: Wait, G: Gate>(
        &self,
        rt: &R,
        gate: &G,
        pass: &mut Pass,
        call: &Call,
        o: u32,
    ) -> Result<Option<Reply>, NoMemory>
        requires idle { IsIdleOf self.now pass.old }
        requires fits { IsTrue (fits self.now.base pass.old.number call.now) }
        requires object { o < length self.now.base.objects }
        requires named { NeedsAtMost o (named_number call.now) }
        ensures kept { IsSamePass self.now pass.old pass.new }
        ensures tried { IfOk result (λ made. IsTried self.now pass.old pass.new call.now made) }
        ensures none { OnErr result (pass.new.mine ≡ pass.old.mine) }
    {
        let who = self.thread_of(pass, call);
        let mut held = self.table.take_object(rt, pass, o);
        gate.at(who, Point::ObjectTaken);
        if prepare(&self.boot, call, held.body()).is_err() {
            self.table.put_object(pass, o, held);
            return Err(NoMemory);
        }
        let seen = look(&self.boot, call, held.body());
        gate.at(who, Point::BeforeTurn);
        let mut turn = self.table.enter(rt, pass);
        let needed = needed_number(&turn.value().kernel, who, call);
        if needs_other(needed, o) {
            self.table.leave(pass, turn);
            self.table.put_object(pass, o, held);
            return Ok(None);
        }
        match self.make(gate, pass, turn, call, seen) {
            Ok(reply) => {
                apply(&self.boot, call, &reply, held.body());
                self.table.put_object(pass, o, held);
                Ok(Some(reply))
            }
            Err(NoMemory) => {
                self.table.put_object(pass, o, held);
                Err(NoMemory)
            }
        }
    }

    // Makes a call: with the object that it names, or that it was seen to need, until it needs no other.
    fn make_call<R: Wait, G: Gate>(
        &self,
        rt: &R,
        gate: &G,
        pass: &mut Pass,
        call: Call,
    ) -> Result<Reply, NoMemory>
        requires idle { IsIdleOf self.now pass.old }
        requires fits { IsTrue (fits self.now.base pass.old.number call) }
        ensures kept { IsSamePass self.now pass.old pass.new }
        ensures made { IfOk result (HasMade self.now pass.old pass.new call) }
        ensures none { OnErr result (pass.new.mine ≡ pass.old.mine) }
    {
        let mut wanted = named_number(&call);
        for _ in rt.forever() {
            match wanted {
                Some(o) => match self.attempt(rt, gate, pass, &call, o)? {
                    Some(reply) => return Ok(reply),
                    None => wanted = None,
                },
                None => match self.first_look(rt, gate, pass, &call)? {
                    Look::Made(reply) => return Ok(reply),
                    Look::Needs(o) => wanted = Some(o),
                },
            }
        }
        unreachable!()
    }

    /// Makes a call. Its entry is the last of the history at the moment when it leaves the turn. Waits for
    /// the turn, and for the word of the object whose bytes it needs. Without memory no entry is made.
    pub fn call<R: Wait, G: Gate>(
        &self,
        rt: &R,
        gate: &G,
        pass: &mut Pass,
        call: Call,
    ) -> Result<Reply, NoMemory>
        requires idle { IsIdleOf self.now pass.old }
        requires fits { IsTrue (fits self.now.base pass.old.number call) }
        ensures kept { IsSamePass self.now pass.old pass.new }
        ensures made { IfOk result (HasMade self.now pass.old pass.new call) }
        ensures none { OnErr result (pass.new.mine ≡ pass.old.mine) }
        ensures own { KnowsOwn pass.new }
    {
        let made = self.make_call(rt, gate, pass, call);
        let _number = pass.number();
        made
    }

    /// How many frames are free after a history that the pass has then seen. It neither waits nor takes
    /// memory.
    pub fn pressure(&self, pass: &mut Pass) -> u64
        requires { IsPassOf self.now pass.old }
        ensures free { result ≡ free self.now.base (reverse pass.new.seen) }
        ensures seen { StartsWith pass.new.seen pass.old.seen }
        ensures same { pass.new ≡ record pass.old { seen = pass.new.seen } }
    {
        self.table.look(pass)
    }

    /// `into` takes in what the other pass knows. Neither holds anything.
    pub fn join(&self, into: &mut Pass, other: Pass)
        requires into { IsIdleOf self.now into.old }
        requires other { IsIdleOf self.now other }
        ensures seen { into.new.seen ≡ longer into.old.seen other.seen }
        ensures both { StartsWith into.new.seen into.old.seen × StartsWith into.new.seen other.seen }
        ensures others { into.new.others ≡ into.old.others ++ gathered_by other }
        ensures weight { weight_of into.new ≡ weight_of into.old + weight_of other }
        ensures distinct { IsDistinct eqb (numbers_of into.new) }
        ensures same { into.new ≡ record into.old { seen = into.new.seen; others = into.new.others } }
    {
        self.table.join_pass(into, other);
    }

    /// The history, once all other passes have been joined into this one. Takes no memory.
    pub fn close(self, pass: Pass) -> EntryList
        requires idle { IsIdleOf self pass }
        requires whole { weight_of pass ≡ self.passes }
        ensures legal { Legal self.base result.list }
        ensures seen { StartsWith result.list pass.seen }
        ensures numbers { AllByRecursion (λ e. e.who < self.passes) result.list }
        ensures lists { (n : ℕ) → n < self.passes → entries_of (λ e. e.who) n result.list ≡ list_in n (gathered_by pass) }
    {
        let SharedKernel { boot: _, table } = self;
        let Core { kernel } = table.close(pass);
        kernel.legal();
        kernel.into_log()
    }
}
