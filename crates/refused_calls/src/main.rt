//! Makes one call of each kind that needs the bytes of an object. Where a call finds no memory, another thread takes the
//! same object and reads the bytes that were there, and the call is made again. tests/refuse runs it with its requests for
//! memory refused. The status is 9 where there is no memory for anything else, and 1 where a reply is wrong.
#![tactic(auto)]

mod cases;

ghost use Rattle.std.specs.Prelude.{◌≡◌, All, IfOk};
ghost use Rattle.turn_lock.specs.Passes.{IsNewPassOf};
ghost use Rattle.kernel_shared.specs.Calls.{IsIdleOf};

use cases::{CASES, Case, SCENARIO, all_cases, object};
use kern_ids::calls::Call;
use kern_ids::entries::NoMemory;
use kern_ids::ids::ThreadId;
use kern_ids::replies::Reply;
use kernel_model::boot::Boot;
use kernel_shared::gate::NoGate;
use kernel_shared::shared::{Pass, PassList, SharedKernel};
use scenario_text::read_scenario;
use std::alloc::Global;
use std::process::ExitCode;
use std::sync::Wait;

/// Why the program ends early.
#[derive(Clone, Copy, PartialEq, Eq, Debug)]
enum Trouble {
    NoMemory,
    WrongReply,
}

impl From<NoMemory> for Trouble {
    fn from(_: NoMemory) -> Trouble {
        Trouble::NoMemory
    }
}

// Makes a call that fits.
fn made<R: Wait>(
    rt: &R,
    kernel: &SharedKernel,
    boot: &Boot,
    pass: &mut Pass,
    call: &Call,
) -> Result<Reply, Trouble>
    requires kernel { kernel.now.base ≡ boot.now }
    requires idle { IsIdleOf kernel.now pass.old }
    ensures { IsIdleOf kernel.now pass.new }
{
    let Some(who) = ThreadId::new(pass.number()) else {
        return Err(Trouble::WrongReply);
    };
    if !boot.fits(who, call) {
        return Err(Trouble::WrongReply);
    }
    match kernel.call(rt, &NoGate, pass, *call) {
        Ok(reply) => Ok(reply),
        Err(NoMemory) => Err(Trouble::NoMemory),
    }
}

// Makes a call that has this reply.
fn answered<R: Wait>(
    rt: &R,
    kernel: &SharedKernel,
    boot: &Boot,
    pass: &mut Pass,
    call: &Call,
    wanted: &Reply,
) -> Result<(), Trouble>
    requires kernel { kernel.now.base ≡ boot.now }
    requires idle { IsIdleOf kernel.now pass.old }
    ensures { IsIdleOf kernel.now pass.new }
{
    let reply = made(rt, kernel, boot, pass, call)?;
    if reply == *wanted {
        Ok(())
    } else {
        Err(Trouble::WrongReply)
    }
}

// Makes the call of the case: whether there was no memory for it first. Another thread has read the object then.
fn tried<R: Wait>(
    rt: &R,
    kernel: &SharedKernel,
    boot: &Boot,
    pass: &mut Pass,
    other: &mut Pass,
    case: &Case,
) -> Result<bool, Trouble>
    requires kernel { kernel.now.base ≡ boot.now }
    requires pass { IsIdleOf kernel.now pass.old }
    requires other { IsIdleOf kernel.now other.old }
{
    match answered(rt, kernel, boot, pass, &case.call, &case.reply) {
        Ok(()) => return Ok(false),
        Err(Trouble::WrongReply) => return Err(Trouble::WrongReply),
        Err(Trouble::NoMemory) => {}
    }
    answered(rt, kernel, boot, other, &case.read, &case.seen)?;
    answered(rt, kernel, boot, pass, &case.call, &case.reply)?;
    Ok(true)
}

// Makes the first four calls of a case. The list of entries is full then, and the next call takes memory for its own.
fn begun<R: Wait>(
    rt: &R,
    kernel: &SharedKernel,
    boot: &Boot,
    owner: &mut Pass,
    case: &Case,
) -> Result<(), Trouble>
    requires kernel { kernel.now.base ≡ boot.now }
    requires idle { IsIdleOf kernel.now owner.old }
    ensures { IsIdleOf kernel.now owner.new }
{
    for call in &case.before {
        made(rt, kernel, boot, owner, call)?;
    }
    Ok(())
}

// The last pass of a list.
fn take_pass(kernel: &SharedKernel, list: &mut PassList) -> Result<Pass, Trouble>
    requires { All (IsNewPassOf kernel.now) list.old }
    ensures idle { IfOk result (IsIdleOf kernel.now) }
    ensures left { All (IsNewPassOf kernel.now) list.new }
{
    match list.take_last() {
        Some(pass) => Ok(pass),
        None => Err(Trouble::WrongReply),
    }
}

// Runs a case with a kernel of its own.
fn run<R: Wait>(rt: &R, alloc: Global, boot: &Boot, case: &Case) -> Result<bool, Trouble> {
    let (kernel, mut list) = SharedKernel::boot(alloc, boot)?;
    let mut scanner = take_pass(&kernel, &mut list)?;
    let mut other = take_pass(&kernel, &mut list)?;
    let mut owner = take_pass(&kernel, &mut list)?;
    begun(rt, &kernel, boot, &mut owner, case)?;
    if case.scans {
        tried(rt, &kernel, boot, &mut scanner, &mut other, case)
    } else {
        tried(rt, &kernel, boot, &mut owner, &mut other, case)
    }
}

// Runs all cases: for which there was no memory first.
fn run_all<R: Wait>(rt: &R, alloc: Global) -> Result<[bool; CASES], Trouble> {
    let scenario = match read_scenario(alloc, SCENARIO) {
        Ok(scenario) => scenario,
        Err(_) => return Err(Trouble::NoMemory),
    };
    let Some(obj) = object() else {
        return Err(Trouble::WrongReply);
    };
    let Some(cases) = all_cases(obj) else {
        return Err(Trouble::WrongReply);
    };
    let mut refused = [false; CASES];
    for i in 0..CASES {
        refused[i] = run(rt, alloc, scenario.boot(), &cases[i])?;
    }
    Ok(refused)
}

fn main(rt: HostRuntime) -> ExitCode {
    let refused = match run_all(&rt, rt.alloc()) {
        Ok(refused) => refused,
        Err(Trouble::NoMemory) => return ExitCode::from(9),
        Err(Trouble::WrongReply) => return ExitCode::from(1),
    };
    for (name, again) in cases::NAMES.iter().zip(&refused) {
        let how = if *again { "made again" } else { "made" };
        if println!(rt; "{name}: {how}").is_err() {
            return ExitCode::from(5);
        }
    }
    ExitCode::from(0)
}
