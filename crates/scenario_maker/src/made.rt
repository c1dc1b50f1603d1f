//! Making a scenario turn by turn.

ghost use Rattle.std.specs.Prelude.{◌≡◌, ◌≤◌, ◌<◌, ◌^◌, length, OnOk, IfOk};
ghost use Rattle.kernel_model.specs.Scenario.{call_count};
ghost use Rattle.scenario_maker.specs.Head.{head};
ghost use Rattle.scenario_maker.specs.Made.{turn, with_turn, made_plan};

use crate::calls::turn;
use crate::draws::Draws;
use crate::head::head;
use kern_ids::entries::NoMemory;
use kernel_model::scenario::Scenario;
use std::alloc::Global;

// Draws turn i, and puts it into the scenario: its thread is the next word of the order, and its call the next of
// the thread's script.
fn add_turn(scenario: &mut Scenario, draws: &mut Draws, i: u32) -> Result<(), NoMemory>
    requires boot { scenario.old.boot ≡ head.boot }
    requires threads { length scenario.old.scripts ≡ 6 }
    requires order { length scenario.old.order < 200000 }
    requires calls { call_count scenario.old.scripts < 200000 }
    ensures made { OnOk result (scenario.new ≡ with_turn scenario.old (turn i draws.old).0) }
    ensures state { draws.new ≡ (turn i draws.old).1 }
{
    let (who, call) = turn(draws, scenario.boot(), i);
    scenario.add_order(who)?;
    scenario.add_call(who, call)
}

/// The scenario of a seed and a number of turns: three tasks, forty objects, six threads, and n calls that
/// the draws from the seed choose.
#[tactic(auto, unfolding(crate::specs::Made::made_plan))]
pub fn make_scenario(alloc: Global, seed: u32, n: u32) -> Result<Scenario, NoMemory>
    requires seed { seed < 2 ^ 31 }
    requires calls { n ≤ 200000 }
    ensures { IfOk result (λ s. s ≡ made_plan seed n) }
{
    let mut scenario = head(alloc)?;
    let mut draws = Draws::new(seed);
    for i in 0..n {
        add_turn(&mut scenario, &mut draws, i)?;
    }
    Ok(scenario)
}
