//! The run of one script.

ghost use Rattle.std.specs.Prelude.{◌≡◌, ◌<◌, length, OnOk, OnErr, All};
ghost use Rattle.kernel_model.specs.Scenario.{script};
ghost use Rattle.kernel_shared.specs.Calls.{IsIdleOf, IsSamePass};
ghost use Rattle.thread_runner.specs.Runs.{FitsBy, HasRun, HasRunSome};

use kern_ids::entries::NoMemory;
use kernel_model::scenario::Scenario;
use kernel_model::script_call::ScriptCall;
use kernel_shared::gate::Gate;
use kernel_shared::shared::{Pass, SharedKernel};
use std::sync::Wait;

// Makes these calls, one after the other.
fn run_calls<R: Wait, G: Gate>(
    rt: &R,
    gate: &G,
    kernel: &SharedKernel,
    pass: &mut Pass,
    calls: &[ScriptCall],
) -> Result<(), NoMemory>
    requires idle { IsIdleOf kernel.now pass.old }
    requires fit { All (FitsBy kernel.now.base pass.old.number) calls.now }
    ensures kept { IsSamePass kernel.now pass.old pass.new }
    ensures ran { OnOk result (HasRun pass.old pass.new calls.now) }
    ensures stopped { OnErr result (HasRunSome pass.old pass.new calls.now) }
{
    for call in calls {
        kernel.call(rt, gate, pass, call.get())?;
    }
    Ok(())
}

/// Makes the calls of the script of the pass's thread, one after the other. Without memory it stops, and the calls
/// before are made.
pub fn run_script<R: Wait, G: Gate>(
    rt: &R,
    gate: &G,
    kernel: &SharedKernel,
    pass: &mut Pass,
    s: &Scenario,
) -> Result<(), NoMemory>
    requires kernel { kernel.now.base ≡ s.now.boot }
    requires idle { IsIdleOf kernel.now pass.old }
    requires thread { pass.old.number < length s.now.scripts }
    ensures kept { IsSamePass kernel.now pass.old pass.new }
    ensures ran { OnOk result (HasRun pass.old pass.new (script s.now pass.old.number)) }
    ensures stopped { OnErr result (HasRunSome pass.old pass.new (script s.now pass.old.number)) }
{
    s.valid();
    let calls = s.scripts()[pass.number() as usize].calls();
    run_calls(rt, gate, kernel, pass, calls)
}
