//! The state after a history, as a line of JSON.

ghost use Rattle.std.specs.Prelude.{◌≡◌, ◌++◌, ◌∷◌, [], map, IfOk, Some, None};
ghost use Rattle.serde_json.specs.View.{view};
ghost use Rattle.serde_json.specs.Written.{compact_text};
ghost use Rattle.report_tables.specs.Json as spec;

use crate::history_facts::Facts;
use crate::lines::{activity, append, state_name};
use crate::rows::{ObjectFacts, TaskFacts};
use kern_ids::entries::NoMemory;
use kern_ids::replies::{FrameCounts, TokenCounts};
use kernel_tables::standing::{LiveTask, MappedObject};
use serde_json::{Value, json};
use std::alloc::{AllocError, Global};

fn live_value(alloc: Global, live: &LiveTask) -> Result<Value, AllocError>
    ensures { IfOk result (λ v. view v ≡ spec.life_data (Some live.now)) }
{
    json!(in alloc; [
        live.band,
        activity(live.active),
        live.counts.res_non,
        live.counts.res_vol,
        live.counts.com_non,
        live.counts.com_vol,
        live.counts.footprint
    ])
}

fn dead_value(alloc: Global) -> Result<Value, AllocError>
    ensures { IfOk result (λ v. view v ≡ spec.life_data None) }
{
    json!(in alloc; ["dead"])
}

#[tactic(auto, unfolding(crate::specs::Json::task_data))]
fn task_value(alloc: Global, task: &TaskFacts) -> Result<Value, AllocError>
    ensures { IfOk result (λ v. view v ≡ spec.task_data task.now) }
{
    match &task.life {
        Some(live) => live_value(alloc, live),
        None => dead_value(alloc),
    }
}

fn mapped_value(alloc: Global, object: &MappedObject) -> Result<Value, AllocError>
    ensures { IfOk result (λ v. view v ≡ spec.held_data (Some object.now)) }
{
    json!(in alloc; [
        state_name(object.state),
        object.active,
        object.inactive,
        object.stored
    ])
}

fn unmapped_value(alloc: Global) -> Result<Value, AllocError>
    ensures { IfOk result (λ v. view v ≡ spec.held_data None) }
{
    json!(in alloc; ["unmapped"])
}

#[tactic(auto, unfolding(crate::specs::Json::object_data))]
fn object_value(alloc: Global, object: &ObjectFacts) -> Result<Value, AllocError>
    ensures { IfOk result (λ v. view v ≡ spec.object_data object.now) }
{
    match &object.held {
        Some(held) => mapped_value(alloc, held),
        None => unmapped_value(alloc),
    }
}

#[tactic(auto, unfolding(crate::specs::Json::frames_data))]
fn frames_value(alloc: Global, frames: &FrameCounts) -> Result<Value, AllocError>
    ensures { IfOk result (λ v. view v ≡ spec.frames_data frames.now) }
{
    json!(in alloc; [
        frames.free,
        frames.active,
        frames.inactive,
        frames.stored,
        frames.entered,
        frames.left
    ])
}

#[tactic(auto, unfolding(crate::specs::Json::tokens_data))]
fn tokens_value(alloc: Global, tokens: &TokenCounts) -> Result<Value, AllocError>
    ensures { IfOk result (λ v. view v ≡ spec.tokens_data tokens.now) }
{
    json!(in alloc; [
        tokens.obsolete.tokens,
        tokens.obsolete.ripe,
        tokens.obsolete.next,
        tokens.obsolete.last,
        tokens.lifo.tokens,
        tokens.lifo.ripe,
        tokens.lifo.next,
        tokens.lifo.last,
        tokens.fifo.tokens,
        tokens.fifo.ripe,
        tokens.fifo.next,
        tokens.fifo.last
    ])
}

#[tactic(auto, using(crate::proofs::JsonLaws::task_values_more))]
fn task_values(alloc: Global, tasks: &[TaskFacts]) -> Result<Value, AllocError>
    ensures { IfOk result (λ v. view v ≡ spec.list_data (map spec.task_data tasks.now)) }
{
    let mut list = Vec::new(alloc);
    for task in tasks {
        let value = task_value(alloc, task)?;
        serde_json::push(&mut list, value)?;
    }
    Ok(Value::Array(list))
}

#[tactic(auto, using(crate::proofs::JsonLaws::object_values_more))]
fn object_values(alloc: Global, objects: &[ObjectFacts]) -> Result<Value, AllocError>
    ensures { IfOk result (λ v. view v ≡ spec.list_data (map spec.object_data objects.now)) }
{
    let mut list = Vec::new(alloc);
    for object in objects {
        let value = object_value(alloc, object)?;
        serde_json::push(&mut list, value)?;
    }
    Ok(Value::Array(list))
}

#[tactic(auto, unfolding(crate::specs::Json::facts_data))]
fn facts_value(alloc: Global, facts: &Facts) -> Result<Value, AllocError>
    ensures { IfOk result (λ v. view v ≡ spec.facts_data facts.now) }
{
    let frames = frames_value(alloc, &facts.frames)?;
    let objects = object_values(alloc, &facts.objects)?;
    let tasks = task_values(alloc, &facts.tasks)?;
    let tokens = tokens_value(alloc, &facts.tokens)?;
    json!(in alloc; {
        "entries": facts.entries,
        "frames": frames,
        "killed": facts.killed,
        "objects": objects,
        "purged": facts.purged,
        "tasks": tasks,
        "tokens": tokens
    })
}

fn facts_text(alloc: Global, facts: &Facts) -> Result<Vec<u8>, AllocError>
    ensures { IfOk result (λ t. t.items ≡ compact_text (spec.facts_data facts.now)) }
{
    let value = facts_value(alloc, facts)?;
    value.to_vec(alloc)
}

/// The state after a history as one JSON object in a line of its own, with no space and with its keys
/// in rising order.
pub fn json_text(alloc: Global, facts: &Facts) -> Result<Vec<u8>, NoMemory>
    ensures { IfOk result (λ t. t.items ≡ compact_text (spec.facts_data facts.now) ++ 10 ∷ []) }
{
    let mut text = match facts_text(alloc, facts) {
        Ok(text) => text,
        Err(_) => return Err(NoMemory),
    };
    append(&mut text, b"\n")?;
    Ok(text)
}
