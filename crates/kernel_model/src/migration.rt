//! What the second form of a scenario keeps.
#![tactic(auto)]

ghost use Rattle.std.specs.Prelude.{◌≡◌};
ghost use Rattle.kernel_model.specs.Scenario.{IsValid, two};
ghost use Rattle.kernel_model.specs.Turns.{serial};

use crate::scenario::Scenario;

/// The scenario in the second form: it is valid, runs the same history, and is its own second form. Takes no
/// memory.
pub fn migrated(scenario: Scenario) -> Scenario
    ensures value { result ≡ two scenario }
    ensures valid { IsValid result }
    ensures serial { serial result ≡ serial scenario }
    ensures same { two result ≡ result }
{
    scenario.into_two()
}
