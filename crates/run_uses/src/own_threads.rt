//! Two threads of the test's own, each of which runs a script with its pass.

ghost use Rattle.std.specs.Prelude.{◌≡◌, ◌∷◌, [], All, IfOk};
ghost use Rattle.kernel_shared.specs.Calls.{IsIdleOf};

use crate::schedule::{Hold, Schedule};
use crate::tests::{TWO_MAPS, moment, scenario};
use kern_ids::entries::{EntryList, NoMemory};
use kern_ids::replies::Reply;
use kernel_model::scenario::Scenario;
use kernel_shared::gate::{Gate, Point};
use kernel_shared::shared::{Pass, SharedKernel};
use std::alloc::Global;
use std::process::Abort;
use std::sync::Wait;
use std::test::Fail;
use std::thread;
use std::thread::Threads;
use thread_runner::run_script;

// Runs the script of the pass's thread, whole.
fn run_own<R: Wait + Abort, G: Gate>(
    rt: &R,
    gate: &G,
    kernel: &SharedKernel,
    pass: Pass,
    s: &Scenario,
) -> Pass
    requires kernel { kernel.now.base ≡ s.now.boot }
    requires idle { IsIdleOf kernel.now pass }
    ensures { IsIdleOf kernel.now result }
{
    let mut pass = pass;
    assert!(rt; (pass.number() as usize) < s.scripts().len());
    let ran = run_script(rt, gate, kernel, &mut pass, s);
    assert!(rt; ran.is_ok());
    pass
}

// Runs the scripts of these passes, each in a thread.
fn run_all<R: Threads + Wait + Abort + Sync, G: Gate + Sync>(
    rt: &R,
    gate: &G,
    kernel: &SharedKernel,
    passes: Vec<Pass>,
    s: &Scenario,
) -> Result<Vec<Pass>, NoMemory>
    requires kernel { kernel.now.base ≡ s.now.boot }
    requires idle { All (IsIdleOf kernel.now) passes.items }
    ensures { IfOk result (λ v. All (IsIdleOf kernel.now) v.items) }
{
    let run = |pass: Pass| -> Pass
        requires { (kernel.now.base ≡ s.now.boot) × IsIdleOf kernel.now pass }
        ensures { IsIdleOf kernel.entry.now result }
    { run_own(rt, gate, kernel, pass, s) };
    match thread::map_vec(rt, passes, &run) {
        Ok(passes) => Ok(passes),
        Err(_) => Err(NoMemory),
    }
}

/// The history of a kernel with two passes.
pub fn closed<R: Abort>(rt: &R, kernel: SharedKernel, first: Pass, second: Pass) -> EntryList
    requires two { kernel.passes ≡ 2 }
    requires first { IsIdleOf kernel first }
    requires second { IsIdleOf kernel second }
{
    let mut pass = first;
    kernel.join(&mut pass, second);
    assert!(rt; pass.weight() == 2);
    kernel.close(pass)
}

/// The two passes of a list.
pub fn both_of(kernel: &SharedKernel, passes: Vec<Pass>) -> Result<(Pass, Pass), NoMemory>
    requires idle { All (IsIdleOf kernel.now) passes.items }
    ensures first { IfOk result (λ both. IsIdleOf kernel.now both.0) }
    ensures second { IfOk result (λ both. IsIdleOf kernel.now both.1) }
{
    let mut passes = passes;
    let Some(second) = passes.pop() else {
        return Err(NoMemory);
    };
    let Some(first) = passes.pop() else {
        return Err(NoMemory);
    };
    Ok((first, second))
}

/// The two passes of a kernel.
pub fn two_passes(alloc: Global, first: Pass, second: Pass) -> Result<Vec<Pass>, NoMemory>
    ensures { IfOk result (λ v. v.items ≡ first ∷ second ∷ []) }
{
    let mut passes = Vec::new(alloc);
    passes.push(first).map_err(|_| NoMemory)?;
    passes.push(second).map_err(|_| NoMemory)?;
    Ok(passes)
}

// Runs a scenario of two threads under a schedule.
fn run_both<R: Threads + Wait + Abort + Sync>(
    rt: &R,
    alloc: Global,
    s: &Scenario,
    schedule: &Schedule<'_>,
) -> Result<EntryList, NoMemory> {
    assert!(rt; s.scripts().len() == 2);
    s.valid();
    let (kernel, mut list) = SharedKernel::boot(alloc, s.boot())?;
    let Some(second) = list.take_last() else {
        return Err(NoMemory);
    };
    let Some(first) = list.take_last() else {
        return Err(NoMemory);
    };
    let passes = two_passes(alloc, first, second)?;
    let passes = run_all(rt, schedule, &kernel, passes, s)?;
    let (first, second) = both_of(&kernel, passes)?;
    Ok(closed(rt, kernel, first, second))
}

// Both threads hold their object's word at one time.
#[test]
fn two_objects_at_once(rt: HostRuntime) -> Result<(), Fail> {
    let alloc = rt.alloc();
    let holds = [
        Hold {
            at: moment(0, Point::ObjectTaken, 1),
            until: moment(1, Point::ObjectTaken, 1),
        },
        Hold {
            at: moment(1, Point::ObjectTaken, 1),
            until: moment(0, Point::ObjectTaken, 1),
        },
    ];
    let schedule = Schedule::new(&holds);
    let s = scenario(&rt, alloc, TWO_MAPS)?;
    let history = run_both(&rt, alloc, &s, &schedule)?;
    assert_eq!(&rt; schedule.ended(), 0);
    assert_eq!(&rt; history.len(), 2);
    for entry in history.as_slice() {
        assert!(&rt; entry.reply == Reply::Mapped);
    }
    Ok(())
}
