//! Scenarios and histories that are read without a fault.

ghost use Rattle.std.specs.Prelude.{◌≤◌, length, IfOk};

use history_text::read_history;
use kern_ids::entries::EntryList;
use kernel_model::scenario::Scenario;
use scenario_text::read_scenario;
use std::alloc::Global;
use std::process::Abort;
use std::test::Fail;

/// The scenario of a text.
pub fn scenario(rt: &impl Abort, alloc: Global, text: &[u8]) -> Result<Scenario, Fail> {
    assert!(rt; text.len() < 1 << 31);
    Ok(read_scenario(alloc, text)?)
}

/// The history of a text.
pub fn history(alloc: Global, text: &str) -> Result<EntryList, Fail>
    ensures { IfOk result (λ h. length h.list ≤ 200000) }
{
    Ok(read_history(alloc, text.as_bytes(), 1)?)
}
