//! Every order of the points of two threads that make three calls each.

ghost use Rattle.std.specs.Prelude.{◌≡◌, All, IfOk, OnOk};
ghost use Rattle.kernel_shared.specs.Calls.{IsIdleOf};

use crate::baton::{Baton, Plan, Steps};
use crate::own_threads::{both_of, closed, two_passes};
use crate::tests::{made, scenario};
use kern_ids::entries::{EntryList, NoMemory};
use kernel_model::scenario::Scenario;
use kernel_model::script_call::ScriptCall;
use kernel_shared::gate::{Gate, NoGate};
use kernel_shared::shared::{Pass, SharedKernel};
use replay_check::{Verdict, check};
use std::alloc::Global;
use std::process::Abort;
use std::sync::Wait;
use std::test::Fail;
use std::thread;
use std::thread::Threads;

// Thread 0 makes three calls alone, then three beside those of thread 1, and one more alone.
const WRITES_AND_PURGES: &[u8] =
    b"jetlab 1\nsystem frames 8 target 8 inactive 3 store 4 critical 0 delay 3\ntask 0 band 5 active 65536 soft inactive 65536 soft\nobject 0 task 0 pages 1\nthread 0 task 0\nmap 0\nwrite 0 0 616263\nset 0 1\nwrite 0 1 64\nset 0 0\nset 0 1\nread 0 0 3\nthread 1 kernel\npurge\nforce\npurge\norder\nend\n";

// More orders than there are.
const MOST: u32 = 10_000_000;

// Makes these calls, each as the baton lets it.
fn make_calls<R: Wait + Abort>(
    rt: &R,
    baton: &Baton<'_, R>,
    kernel: &SharedKernel,
    pass: &mut Pass,
    s: &Scenario,
    calls: &[ScriptCall],
) -> Result<(), NoMemory>
    requires kernel { kernel.now.base ≡ s.now.boot }
    requires idle { IsIdleOf kernel.now pass.old }
    ensures { IsIdleOf kernel.now pass.new }
{
    let thread = pass.number();
    for call in calls {
        let call = call.get();
        baton.before_call(thread, &call);
        let reply = made(rt, baton, kernel, s.boot(), pass, &call)?;
        baton.after_call(thread, &call, &reply);
    }
    baton.finish(thread);
    Ok(())
}

// What a thread does beside the other one: thread 0 its fourth to sixth call, thread 1 all of its calls.
fn run_own<R: Wait + Abort>(
    rt: &R,
    baton: &Baton<'_, R>,
    kernel: &SharedKernel,
    pass: Pass,
    s: &Scenario,
) -> Pass
    requires kernel { kernel.now.base ≡ s.now.boot }
    requires idle { IsIdleOf kernel.now pass }
    ensures { IsIdleOf kernel.now result }
{
    let mut pass = pass;
    let scripts = s.scripts();
    assert!(rt; scripts.len() == 2);
    let first = scripts[0].calls();
    assert!(rt; first.len() == 7);
    let calls = if pass.number() == 0 {
        &first[3..6]
    } else {
        scripts[1].calls()
    };
    let ran = make_calls(rt, baton, kernel, &mut pass, s, calls);
    assert!(rt; ran.is_ok());
    pass
}

// Both threads, each with its pass.
fn run_both<R: Threads + Wait + Abort + Sync>(
    rt: &R,
    baton: &Baton<'_, R>,
    kernel: &SharedKernel,
    passes: Vec<Pass>,
    s: &Scenario,
) -> Result<Vec<Pass>, NoMemory>
    requires kernel { kernel.now.base ≡ s.now.boot }
    requires idle { All (IsIdleOf kernel.now) passes.items }
    ensures { IfOk result (λ v. All (IsIdleOf kernel.now) v.items) }
{
    let run = |pass: Pass| -> Pass
        requires { (kernel.now.base ≡ s.now.boot) × IsIdleOf kernel.now pass }
        ensures { IsIdleOf kernel.entry.now result }
    { run_own(rt, baton, kernel, pass, s) };
    match thread::map_vec(rt, passes, &run) {
        Ok(passes) => Ok(passes),
        Err(_) => Err(NoMemory),
    }
}

// Makes these calls with no other thread.
fn make_alone<R: Wait + Abort>(
    rt: &R,
    kernel: &SharedKernel,
    pass: &mut Pass,
    s: &Scenario,
    calls: &[ScriptCall],
) -> Result<(), NoMemory>
    requires kernel { kernel.now.base ≡ s.now.boot }
    requires idle { IsIdleOf kernel.now pass.old }
    ensures { IsIdleOf kernel.now pass.new }
{
    for call in calls {
        made(rt, &NoGate, kernel, s.boot(), pass, &call.get())?;
    }
    Ok(())
}

// The calls of thread 0 in a range.
fn calls_of_first<'a, R: Abort>(
    rt: &R,
    s: &'a Scenario,
    from: usize,
    to: usize,
) -> &'a [ScriptCall] {
    let scripts = s.scripts();
    assert!(rt; !scripts.is_empty());
    let calls = scripts[0].calls();
    assert!(rt; from <= to && to <= calls.len());
    &calls[from..to]
}

// The history, once thread 0 has made its last call.
fn ended<R: Wait + Abort>(
    rt: &R,
    kernel: SharedKernel,
    passes: Vec<Pass>,
    s: &Scenario,
) -> Result<EntryList, NoMemory>
    requires two { kernel.passes ≡ 2 }
    requires kernel { kernel.base ≡ s.now.boot }
    requires idle { All (IsIdleOf kernel) passes.items }
{
    let (mut first, second) = both_of(&kernel, passes)?;
    make_alone(rt, &kernel, &mut first, s, calls_of_first(rt, s, 6, 7))?;
    Ok(closed(rt, kernel, first, second))
}

// Runs the scenario as the plan says.
fn run_planned<R: Threads + Wait + Abort + Sync>(
    rt: &R,
    alloc: Global,
    s: &Scenario,
    plan: Plan,
) -> Result<(EntryList, Steps), NoMemory> {
    assert!(rt; s.scripts().len() == 2);
    s.valid();
    let (kernel, mut list) = SharedKernel::boot(alloc, s.boot())?;
    let Some(second) = list.take_last() else {
        return Err(NoMemory);
    };
    let Some(mut first) = list.take_last() else {
        return Err(NoMemory);
    };
    make_alone(rt, &kernel, &mut first, s, calls_of_first(rt, s, 0, 3))?;
    let baton = Baton::new(rt, plan);
    let passes = two_passes(alloc, first, second)?;
    let passes = run_both(rt, &baton, &kernel, passes, s)?;
    Ok((ended(rt, kernel, passes, s)?, baton.steps()))
}

// The same calls of the same threads in the same order, with the same replies.
fn are_alike(one: &EntryList, other: &EntryList) -> bool {
    one.as_slice() == other.as_slice()
}

// What the orders came to.
#[derive(Drop)]
struct Walked {
    orders: u32,
    histories: Vec<EntryList>,
}

impl Walked {
    // Counts an order with its history.
    fn add(&mut self, history: EntryList) -> Result<(), NoMemory> {
        self.orders = self.orders.saturating_add(1);
        for known in &self.histories {
            if are_alike(known, &history) {
                return Ok(());
            }
        }
        self.histories.push(history).map_err(|_| NoMemory)?;
        Ok(())
    }
}

// The history of a run as the plan says is legal and whole.
fn run_checked<R: Threads + Wait + Abort + Sync>(
    rt: &R,
    alloc: Global,
    s: &Scenario,
    plan: Plan,
) -> Result<(EntryList, Steps), NoMemory> {
    let (history, steps) = run_planned(rt, alloc, s, plan)?;
    assert!(rt; history.len() == 10);
    let verdict = check(alloc, s, &history)?;
    assert!(rt; verdict == Verdict::Legal);
    assert!(rt; steps.end != 0);
    Ok((history, steps))
}

// Runs the scenario in every order that begins as the plan says.
fn walk<R: Threads + Wait + Abort + Sync>(
    rt: &R,
    alloc: Global,
    s: &Scenario,
    first: Plan,
) -> Result<Walked, NoMemory> {
    let mut walked = Walked {
        orders: 0,
        histories: Vec::new(alloc),
    };
    let mut plan = first;
    for _ in 0..MOST {
        let (history, steps) = run_checked(rt, alloc, s, plan)?;
        walked.add(history)?;
        match steps.next_plan(first.end) {
            Some(next) => plan = next,
            None => return Ok(walked),
        }
    }
    Ok(walked)
}

// Runs in every order whose steps before that of the mask `end` are so: thread 1 goes at those of the masks `second`.
// There are so many, and ten histories: the order of the six turns is free but for the first one.
fn walk_from<R: Threads + Wait + Abort + AllocGlobal + Print + Sync>(
    rt: &R,
    second: u64,
    end: u64,
    orders: u32,
) -> Result<(), Fail> {
    let alloc = rt.alloc();
    let s = scenario(rt, alloc, WRITES_AND_PURGES)?;
    let walked = walk(rt, alloc, &s, Plan { second, end })?;
    let histories = walked.histories.len();
    println!(rt; "{} orders, {histories} histories", walked.orders)?;
    assert_eq!(rt; walked.orders, orders);
    assert_eq!(rt; histories, 10);
    Ok(())
}

// A write, a return to nonvolatile and a second volatile state stand beside three purges. The tests share the orders by the
// step at which thread 1 begins. There are 63,168 orders and 20 histories, one for each order of the six turns.

// Thread 1 makes the first two steps, and has the object then.
#[test]
fn second_has_the_object_first(rt: HostRuntime) -> Result<(), Fail> {
    walk_from(&rt, 3, 4, 9_438)
}

#[test]
fn second_begins_at_step_0(rt: HostRuntime) -> Result<(), Fail> {
    walk_from(&rt, 1, 4, 9_892)
}

#[test]
fn second_begins_at_step_1(rt: HostRuntime) -> Result<(), Fail> {
    walk_from(&rt, 2, 4, 9_892)
}

#[test]
fn second_begins_at_step_2(rt: HostRuntime) -> Result<(), Fail> {
    walk_from(&rt, 4, 8, 9_892)
}

#[test]
fn second_begins_at_step_3(rt: HostRuntime) -> Result<(), Fail> {
    walk_from(&rt, 8, 16, 9_892)
}

#[test]
fn second_begins_at_step_4(rt: HostRuntime) -> Result<(), Fail> {
    walk_from(&rt, 16, 32, 9_892)
}

#[test]
fn second_begins_later(rt: HostRuntime) -> Result<(), Fail> {
    walk_from(&rt, 0, 32, 4_270)
}
