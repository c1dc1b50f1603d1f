//! A scenario with a history, read.

ghost use Rattle.std.specs.Prelude.{◌≡◌, ◌<◌, ◌≤◌, ◌^◌, length, IfOk};
ghost use Rattle.report_tables.specs.Reports.{input_of, InputGives};

use history_text::read_history;
use kern_ids::entries::EntryList;
use kern_ids::faults::ReadFault;
use kernel_model::scenario::Scenario;
use scenario_text::read_front;
use std::alloc::Global;

/// The scenario and the history that the bytes are, or their first fault.
#[tactic(auto, unfolding(crate::specs::Reports::input_of))]
pub fn read_input(alloc: Global, bytes: &[u8]) -> Result<(Scenario, EntryList), ReadFault>
    requires { length bytes.now < 2 ^ 31 }
    ensures exact { InputGives result (input_of bytes.now) }
    ensures few { IfOk result (λ r. length r.1.list ≤ 200000) }
{
    let (scenario, taken, lines) = match read_front(alloc, bytes) {
        Ok(front) => front,
        Err(fault) => return Err(fault),
    };
    match read_history(alloc, &bytes[taken..], lines + 1) {
        Ok(history) => Ok((scenario, history)),
        Err(fault) => Err(fault),
    }
}
