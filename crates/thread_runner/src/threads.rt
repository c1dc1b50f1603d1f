//! The run of all scripts, each in a thread of its own.

ghost use Rattle.std.specs.Prelude.{◌≡◌, ◌<◌, length, All, IfOk};
ghost use Rattle.kernel_model.specs.Histories.{Legal};
ghost use Rattle.turn_lock.specs.Passes.{IsNewPassOf};
ghost use Rattle.kernel_shared.specs.Calls.{pass_count};
ghost use Rattle.kernel_model.specs.Whole.{IsWhole};
ghost use Rattle.thread_runner.specs.Threads.{IsFinished, IsJoined};

use crate::script::run_script;
use kern_ids::entries::{EntryList, NoMemory};
use kernel_model::scenario::Scenario;
use kernel_shared::gate::Gate;
use kernel_shared::shared::{Pass, PassList, SharedKernel};
use std::alloc::Global;
use std::sync::Wait;
use std::thread;
use std::thread::Threads;

// A pass once its script was run, and whether all of it was.
#[derive(Drop)]
pub struct Finished {
    pub pass: Pass,
    pub whole: bool,
}

// Runs the script of the pass's thread. Where no thread is declared there is nothing to run.
fn run_pass<R: Wait, G: Gate>(
    rt: &R,
    gate: &G,
    kernel: &SharedKernel,
    pass: Pass,
    s: &Scenario,
) -> Finished
    requires kernel { kernel.now.base ≡ s.now.boot }
    requires new { IsNewPassOf kernel.now pass }
    ensures { IsFinished kernel.now s.now result }
{
    let mut pass = pass;
    if s.scripts().len() <= pass.number() as usize {
        return Finished { pass, whole: true };
    }
    let whole = run_script(rt, gate, kernel, &mut pass, s).is_ok();
    Finished { pass, whole }
}

// The passes of a list.
fn passes_of(alloc: Global, kernel: &SharedKernel, list: PassList) -> Result<Vec<Pass>, NoMemory>
    requires { All (IsNewPassOf kernel.now) list }
    ensures count { IfOk result (λ v. length v.items ≡ length list) }
    ensures new { IfOk result (λ v. All (IsNewPassOf kernel.now) v.items) }
{
    let mut list = list;
    let mut passes = Vec::new(alloc);
    while let Some(pass) = list.take_last() {
        passes.push(pass).map_err(|_| NoMemory)?;
    }
    Ok(passes)
}

// All passes in one, where each script was run whole.
fn join_all(kernel: &SharedKernel, s: &Scenario, finished: Vec<Finished>) -> Result<Pass, NoMemory>
    requires some { 0 < length finished.items }
    requires finished { All (IsFinished kernel.now s.now) finished.items }
    ensures { IfOk result (IsJoined kernel.now s.now (length finished.items)) }
{
    let mut finished = finished;
    let Some(first) = finished.pop() else {
        unreachable!()
    };
    let Finished { mut pass, whole } = first;
    if !whole {
        return Err(NoMemory);
    }
    while let Some(other) = finished.pop() {
        if !other.whole {
            return Err(NoMemory);
        }
        kernel.join(&mut pass, other.pass);
    }
    Ok(pass)
}

/// Runs the scenario with a thread a script, and answers the history. A thread that can't be started is done by the
/// caller. Where one of them has no memory left the others go on to their ends, and there is no answer.
pub fn run_threads<R: Threads + Wait + Sync, G: Gate + Sync>(
    rt: &R,
    alloc: Global,
    gate: &G,
    s: &Scenario,
) -> Result<EntryList, NoMemory>
    ensures legal { IfOk result (λ h. Legal s.now.boot h.list) }
    ensures whole { IfOk result (λ h. IsWhole s.now h.list) }
{
    s.valid();
    let (kernel, list) = SharedKernel::boot(alloc, s.boot())?;
    let passes = passes_of(alloc, &kernel, list)?;
    let shared = &kernel;
    let run = |pass: Pass| -> Finished
        requires { (shared.now.base ≡ s.now.boot) × IsNewPassOf shared.now pass }
        ensures { IsFinished shared.entry.now s.entry.now result }
    { run_pass(rt, gate, shared, pass, s) };
    let finished = match thread::map_vec(rt, passes, &run) {
        Ok(finished) => finished,
        Err(_) => return Err(NoMemory),
    };
    let pass = join_all(&kernel, s, finished)?;
    Ok(kernel.close(pass))
}
