//! The verdict on a whole history.

ghost use Rattle.std.specs.Prelude.{◌≡◌, ◌<◌, ◌^◌, length, IfOk};
ghost use Rattle.kernel_model.specs.Histories as histories;
ghost use Rattle.replay_check.specs.Replays.{StandsFor};
ghost use Rattle.replay_check.specs.Verdicts.{verdict_of};
ghost use Rattle.kernel_model.specs.Whole.{IsWhole};

use crate::replays::Replay;
use crate::verdicts::Verdict;
use kern_ids::entries::{EntryList, NoMemory};
use kernel_model::scenario::Scenario;
use std::alloc::Global;

/// The replay of a whole history of the scenario, of fewer than 2^32 entries.
pub fn replay(alloc: Global, scenario: &Scenario, history: &EntryList) -> Result<Replay, NoMemory>
    requires { length history.now.list < 2 ^ 32 }
    ensures { IfOk result (StandsFor scenario.now history.now.list) }
{
    let mut replay = Replay::new(alloc, scenario)?;
    let entries = history.as_slice();
    for entry in entries {
        replay.feed(scenario, entry)?;
    }
    Ok(replay)
}

/// The verdict on a history of the scenario, of fewer than 2^32 entries.
pub fn check(alloc: Global, scenario: &Scenario, history: &EntryList) -> Result<Verdict, NoMemory>
    requires { length history.now.list < 2 ^ 32 }
    ensures verdict { IfOk result (λ v. v ≡ verdict_of scenario.now history.now.list) }

    // It is Legal exactly where the history is legal and whole.
    ensures legal { IfOk result (λ v. v ≡ Verdict.Legal → histories.Legal scenario.now.boot history.now.list) }
    ensures whole { IfOk result (λ v. v ≡ Verdict.Legal → IsWhole scenario.now history.now.list) }
    ensures only { IfOk result (λ v. histories.Legal scenario.now.boot history.now.list → IsWhole scenario.now history.now.list → v ≡ Verdict.Legal) }
{
    scenario.valid();
    let replay = replay(alloc, scenario, history)?;
    Ok(replay.verdict(scenario))
}
