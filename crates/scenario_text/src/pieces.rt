//! The text of a scenario, in pieces of a line at most.

ghost use Rattle.std.specs.Prelude.{◌≡◌, ◌<◌, ◌≤◌, ◌+◌, ◌++◌, ◌∷◌, [], length, map, MatchOption, Option, codes};
ghost use Rattle.std.specs.Iterator.{at_most};
ghost use Rattle.edge.specs.Pieces.{GivesPiece};
ghost use Rattle.scenario_text.specs.Text.{scenario_text};
ghost use Rattle.scenario_text.specs.Left.{text_left, IsNumbered};

use crate::stage::Stage;
use crate::writing::{
    push_call_line, push_fixed, push_head_line, push_object_line, push_order_word,
    push_system_line, push_task_line, push_thread_line,
};
use edge::pieces::Pieces;
use kern_ids::ids::ThreadId;
use kern_ids::lines::LineBuf;
use kernel_model::boot::{ObjBoot, Side, TaskBoot};
use kernel_model::scenario::{Scenario, Script};
use kernel_model::script_call::ScriptCall;
use std::marker::Model;

/// The text of a scenario, seen as what is left of it. Takes no memory.
#[derive(Drop)]
pub struct ScenarioPieces<'a> {
    stage: Stage<'a>,
}

impl<'a> Model for ScenarioPieces<'a> {
    ghost use Rattle.std.specs.Prelude.{ℕ, List};
    ghost use Rattle.scenario_text.specs.Left.{text_left, IsNumbered};

    ghost Value = { List ℕ };

    ghost view = { λ p. text_left p.stage };

    ghost invariant = { λ p. IsNumbered p.stage };
}

impl<'a> ScenarioPieces<'a> {
    /// All of the text.
    pub fn new(scenario: &'a Scenario) -> Self
        ensures { result ≡ scenario_text scenario.now }
    {
        ScenarioPieces {
            stage: Stage::Head(scenario),
        }
    }
}

// Each of these puts together the next piece, and gives what is left after it.
fn from_order<'a>(line: &mut LineBuf, order: &'a [ThreadId]) -> Stage<'a>
    requires { line.old ≡ [] }
    ensures left { text_left (Stage.Order order.entry) ≡ line.new ++ text_left result }
    ensures some { 0 < length line.new }
    ensures numbered { IsNumbered result }
{
    match order.split_first() {
        Some((who, rest)) => {
            push_order_word(line, who.get());
            Stage::Order(rest)
        }
        None => {
            push_fixed(line, b"\n");
            Stage::End
        }
    }
}

#[tactic(auto, using(crate::proofs::PieceLemmas::no_sides_left, crate::proofs::PieceLemmas::no_scripts_left))]
fn from_threads<'a>(
    line: &mut LineBuf,
    order: &'a [ThreadId],
    sides: &'a [Side],
    scripts: &'a [Script],
    n: usize,
) -> Stage<'a>
    requires empty { line.old ≡ [] }
    requires number { n + length sides.now ≤ 32 }
    ensures left { text_left (Stage.Threads order.entry sides.entry scripts.entry n) ≡ line.new ++ text_left result }
    ensures some { 0 < length line.new }
    ensures numbered { IsNumbered result }
{
    let (side, sides) = match sides.split_first() {
        Some(split) => split,
        None => {
            push_fixed(line, b"order");
            return Stage::Order(order);
        }
    };
    match scripts.split_first() {
        Some((script, scripts)) => {
            push_thread_line(line, n, side);
            Stage::Calls(script.calls(), order, sides, scripts, n + 1)
        }
        None => {
            push_fixed(line, b"order");
            Stage::Order(order)
        }
    }
}

fn from_calls<'a>(
    line: &mut LineBuf,
    calls: &'a [ScriptCall],
    order: &'a [ThreadId],
    sides: &'a [Side],
    scripts: &'a [Script],
    n: usize,
) -> Stage<'a>
    requires empty { line.old ≡ [] }
    requires number { n + length sides.now ≤ 32 }
    ensures left { text_left (Stage.Calls calls.entry order.entry sides.entry scripts.entry n) ≡ line.new ++ text_left result }
    ensures some { 0 < length line.new }
    ensures numbered { IsNumbered result }
{
    match calls.split_first() {
        Some((call, calls)) => {
            push_call_line(line, &call.get());
            Stage::Calls(calls, order, sides, scripts, n)
        }
        None => from_threads(line, order, sides, scripts, n),
    }
}

fn from_objects<'a>(
    line: &mut LineBuf,
    scenario: &'a Scenario,
    objects: &'a [ObjBoot],
    n: usize,
) -> Stage<'a>
    requires empty { line.old ≡ [] }
    requires number { n + length objects.now ≤ 256 }
    ensures left { text_left (Stage.Objects scenario.entry objects.entry n) ≡ line.new ++ text_left result }
    ensures some { 0 < length line.new }
    ensures numbered { IsNumbered result }
{
    match objects.split_first() {
        Some((object, objects)) => {
            push_object_line(line, n, object);
            Stage::Objects(scenario, objects, n + 1)
        }
        None => from_threads(
            line,
            scenario.order(),
            scenario.boot().sides(),
            scenario.scripts(),
            0,
        ),
    }
}

fn from_tasks<'a>(
    line: &mut LineBuf,
    scenario: &'a Scenario,
    tasks: &'a [TaskBoot],
    n: usize,
) -> Stage<'a>
    requires empty { line.old ≡ [] }
    requires number { n + length tasks.now ≤ 64 }
    ensures left { text_left (Stage.Tasks scenario.entry tasks.entry n) ≡ line.new ++ text_left result }
    ensures some { 0 < length line.new }
    ensures numbered { IsNumbered result }
{
    match tasks.split_first() {
        Some((task, tasks)) => {
            push_task_line(line, scenario.form(), n, task);
            Stage::Tasks(scenario, tasks, n + 1)
        }
        None => from_objects(line, scenario, scenario.boot().objects(), 0),
    }
}

// The next piece, and what is left after it, if anything is left.
fn next_part<'a>(line: &mut LineBuf, stage: Stage<'a>) -> Option<Stage<'a>>
    requires empty { line.old ≡ [] }
    requires number { IsNumbered stage }
    ensures left { MatchOption result (text_left stage.entry ≡ []) (λ rest. (0 < length line.new) × (text_left stage.entry ≡ line.new ++ text_left rest)) }
    ensures numbered { MatchOption result (Unit {0}) (λ rest. IsNumbered rest) }
{
    match stage {
        Stage::Head(scenario) => {
            push_head_line(line, scenario.form());
            Some(Stage::System(scenario))
        }
        Stage::System(scenario) => {
            push_system_line(line, scenario.form(), scenario.boot().params());
            Some(Stage::Tasks(scenario, scenario.boot().tasks(), 0))
        }
        Stage::Tasks(scenario, tasks, n) => Some(from_tasks(line, scenario, tasks, n)),
        Stage::Objects(scenario, objects, n) => Some(from_objects(line, scenario, objects, n)),
        Stage::Threads(order, sides, scripts, n) => {
            Some(from_threads(line, order, sides, scripts, n))
        }
        Stage::Calls(calls, order, sides, scripts, n) => {
            Some(from_calls(line, calls, order, sides, scripts, n))
        }
        Stage::Order(order) => Some(from_order(line, order)),
        Stage::End => {
            push_fixed(line, b"end\n");
            Some(Stage::Closed)
        }
        Stage::Closed => None,
    }
}

impl<'a> Pieces for ScenarioPieces<'a> {
    ghost text_left = { λ text. text };

    fn next_piece(&mut self) -> Option<LineBuf> {
        let mut piece = LineBuf::new();
        self.stage = next_part(&mut piece, self.stage)?;
        Some(piece)
    }
}

impl<'a> Iterator for ScenarioPieces<'a> {
    type Item = LineBuf;

    ghost next_gives = { GivesPiece };

    ghost remaining = { λ text. at_most (length text) };

    fn next(&mut self) -> Option<LineBuf> {
        self.next_piece()
    }
}
