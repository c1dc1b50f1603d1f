//! The run of a scenario on one thread: its calls in the order of its turns, each answered over the
//! entries before it.
#![tactic(auto)]

ghost use Rattle.std.specs.Prelude.{◌≡◌, ◌∷◌, reverse, IsTrue, IfOk, OnOk};
ghost use Rattle.kernel_model.specs.Histories.{fits, Legal};
ghost use Rattle.kernel_model.specs.Turns.{answered, serial, turns};
ghost use Rattle.kernel_model.specs.Whole.{IsWhole, turns_of};

use kern_ids::entries::{EntryList, NoMemory};
use kern_ids::ids::ThreadId;
use kern_ids::replies::Reply;
use kernel_core::one_thread::OneThread;
use kernel_model::law::histories::serial_history;
use kernel_model::scenario::Scenario;
use kernel_model::script_call::ScriptCall;
use kernel_model::turns::Turns;
use std::alloc::Global;

// Makes a call.
fn take_turn(
    kernel: &mut OneThread<EntryList>,
    who: ThreadId,
    call: &ScriptCall,
) -> Result<(), NoMemory>
    requires { IsTrue (fits kernel.old.boot who call.now) }
    ensures boot { kernel.new.boot ≡ kernel.old.boot }
    ensures ok { OnOk result (reverse kernel.new.history ≡ answered kernel.old.boot (reverse kernel.old.history) (who, call.now) ∷ reverse kernel.old.history) }
{
    let call = call.get();
    let mut reply = Reply::Nothing;
    kernel.call(who, &call, &mut reply)?;
    Ok(())
}

/// A kernel that has made the calls of the scenario's turns.
pub fn run_kernel(alloc: Global, scenario: &Scenario) -> Result<OneThread<EntryList>, NoMemory>
    ensures boot { IfOk result (λ k. k.boot ≡ scenario.now.boot) }
    ensures serial { IfOk result (λ k. k.history ≡ serial scenario.now) }
{
    scenario.valid();
    let mut kernel = OneThread::boot(alloc, scenario.boot(), EntryList::new(alloc))?;
    let mut turns = Turns::new(alloc, scenario)?;
    'turns: while let Some(turn) = turns.next() {
        take_turn(&mut kernel, turn.0, turn.1)?;
    }
    Ok(kernel)
}

/// The history of the scenario's turns: its threads and calls are those turns, in order, so that each script is made
/// once and in order, and each reply is the answer over the entries before it.
pub fn run_serial(alloc: Global, scenario: &Scenario) -> Result<EntryList, NoMemory>
    ensures serial { IfOk result (λ h. h.list ≡ serial scenario.now) }
    ensures turns { IfOk result (λ h. turns_of h.list ≡ turns scenario.now) }
    ensures legal { IfOk result (λ h. Legal scenario.now.boot h.list) }
    ensures whole { IfOk result (λ h. IsWhole scenario.now h.list) }
{
    let kernel = run_kernel(alloc, scenario)?;
    kernel.legal();
    serial_history();
    Ok(kernel.into_log())
}
