ghost use Rattle.std.specs.Prelude.{◌≡◌, ◌≤◌, ◌<◌, ◌∷◌, [], vec_len, Some, None, IfOk, MatchOption};
ghost use Rattle.kernel_model.specs.Turns.{turns, turns_from, rest_turns, next_call, after_turn};
ghost use Rattle.kernel_model.specs.TurnsLeft.{calls_left, AreSpent};

use crate::scenario::{Scenario, Script};
use crate::script_call::ScriptCall;
use kern_ids::entries::NoMemory;
use kern_ids::ids::ThreadId;
use std::alloc::Global;
use std::marker::Model;

/// What is left of the turns: words of the order, and calls of each thread. Seen as the list of the turns,
/// each a thread and its call.
#[derive(Drop)]
pub struct Turns<'a> {
    order: &'a [ThreadId],
    scripts: Vec<&'a [ScriptCall]>,
    /// The scripts before this one are spent.
    from: usize,
}

impl<'a> Model for Turns<'a> {
    ghost use Rattle.std.specs.Prelude.{ℕ, ◌<◌, ◌≤◌, vec_len, List};
    ghost use Rattle.kern_ids.specs.declared.calls.Call.{Call};
    ghost use Rattle.kernel_model.specs.Turns.{turns_from};
    ghost use Rattle.kernel_model.specs.TurnsLeft.{calls_left, AreSpent};

    ghost Value = { List (ℕ × Call) };

    ghost view = { λ t. turns_from t.order.now (calls_left t.scripts.items) };

    ghost invariant = { λ t. (vec_len t.scripts ≤ 32) × AreSpent t.from (calls_left t.scripts.items) };
}

// The calls of each thread, all of them.
fn all_calls<'a>(alloc: Global, scripts: &'a [Script]) -> Result<Vec<&'a [ScriptCall]>, NoMemory>
    ensures { IfOk result (λ v. calls_left v.items ≡ scripts.now) }
{
    let mut calls = Vec::new(alloc);
    'scripts: for script in scripts {
        calls.reserve(1).map_err(|_| NoMemory)?;
        calls.push_reserved(script.calls());
    }
    Ok(calls)
}

impl<'a> Turns<'a> {
    /// All turns of a scenario.
    pub fn new(alloc: Global, scenario: &'a Scenario) -> Result<Turns<'a>, NoMemory>
        ensures { IfOk result (λ t. t ≡ turns scenario.now) }
    {
        scenario.valid();
        let sides = scenario.boot().sides();
        let _few = sides.len();
        let scripts = all_calls(alloc, scenario.scripts())?;
        Ok(Turns {
            order: scenario.order(),
            scripts,
            from: 0,
        })
    }
}

// Takes the next call of thread n, if it has one left.
fn take_call<'a>(scripts: &mut Vec<&'a [ScriptCall]>, n: usize) -> Option<&'a ScriptCall>
    ensures taken { MatchOption result
        ((next_call (calls_left scripts.old.items) n ≡ None) × (scripts.new.items ≡ scripts.old.items))
        (λ call. (next_call (calls_left scripts.old.items) n ≡ Some call.now) × (calls_left scripts.new.items ≡ after_turn (calls_left scripts.old.items) n)) }
    ensures len { vec_len scripts.new ≡ vec_len scripts.old }
{
    let rest: &'a [ScriptCall] = match scripts.get(n) {
        Some(rest) => rest,
        None => return None,
    };
    match rest.split_first() {
        Some((call, more)) => {
            scripts[n] = more;
            Some(call)
        }
        None => None,
    }
}

// The next turn of the order, or none where the order is spent.
fn next_ordered<'a>(
    order: &mut &'a [ThreadId],
    scripts: &mut Vec<&'a [ScriptCall]>,
    from: usize,
) -> Option<(ThreadId, &'a ScriptCall)>
    requires { AreSpent from (calls_left scripts.old.items) }
    ensures turn { MatchOption result
        ((order.new.now ≡ []) × (turns_from order.old.now (calls_left scripts.old.items) ≡ rest_turns 0 (calls_left scripts.new.items)))
        (λ t. turns_from order.old.now (calls_left scripts.old.items) ≡ (t.0, t.1.now) ∷ turns_from order.new.now (calls_left scripts.new.items)) }
    ensures spent { AreSpent from (calls_left scripts.new.items) }
    ensures len { vec_len scripts.new ≡ vec_len scripts.old }
{
    'words: while let Some((who, rest)) = order.split_first() {
        *order = rest;
        if let Some(call) = take_call(scripts, who.get() as usize) {
            return Some((*who, call));
        }
    }
    None
}

// The next turn of what is left of the scripts, by rising thread number.
fn next_left<'a>(
    scripts: &mut Vec<&'a [ScriptCall]>,
    from: &mut usize,
) -> Option<(ThreadId, &'a ScriptCall)>
    requires few { vec_len scripts.old ≤ 32 }
    requires spent { AreSpent from.old (calls_left scripts.old.items) }
    ensures turn { MatchOption result
        ((rest_turns 0 (calls_left scripts.old.items) ≡ []) × (scripts.new.items ≡ scripts.old.items))
        (λ t. rest_turns 0 (calls_left scripts.old.items) ≡ (t.0, t.1.now) ∷ rest_turns 0 (calls_left scripts.new.items)) }
    ensures spent { AreSpent from.new (calls_left scripts.new.items) }
    ensures len { vec_len scripts.new ≡ vec_len scripts.old }
{
    'threads: while *from < scripts.len() {
        let who = match ThreadId::new(*from as u32) {
            Some(who) => who,
            None => unreachable!(),
        };
        if let Some(call) = take_call(scripts, *from) {
            return Some((who, call));
        }
        *from += 1;
    }
    None
}

impl<'a> Turns<'a> {
    /// The next turn: a thread and its call. None exactly where no turn is left.
    pub fn next(&mut self) -> Option<(ThreadId, &'a ScriptCall)>
        ensures { MatchOption result ((self.old ≡ []) × (self.new ≡ [])) (λ t. self.old ≡ (t.0, t.1.now) ∷ self.new) }
    {
        if let Some(turn) = next_ordered(&mut self.order, &mut self.scripts, self.from) {
            return Some(turn);
        }
        next_left(&mut self.scripts, &mut self.from)
    }
}
