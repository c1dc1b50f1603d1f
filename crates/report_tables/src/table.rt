//! The table of the state after a history.

ghost use Rattle.std.specs.Prelude.{◌≡◌, ◌≤◌, ◌+◌, ◌++◌, length, map, IfOk, OnOk, Some};
ghost use Rattle.line_text.specs.Cut.{spaced, text_of};
ghost use Rattle.report_tables.specs.Table.{line_text, head_words, life_words, task_words, held_words, object_words, table_text};

use crate::history_facts::Facts;
use crate::lines::{
    activity, append, push_field, push_spaced_reply, push_word, reply_line, state_name,
};
use crate::rows::{ObjectFacts, TaskFacts};
use kern_ids::entries::NoMemory;
use kern_ids::lines::LineBuf;
use kern_ids::replies::Reply;
use kernel_tables::standing::{LiveTask, MappedObject};
use std::alloc::Global;

fn head_line(entries: usize, purged: usize, killed: usize) -> LineBuf
    ensures { result ≡ line_text (head_words entries purged killed) }
{
    let mut line = LineBuf::new();
    push_field(&mut line, b"entries ", entries as u64);
    push_field(&mut line, b" purged ", purged as u64);
    push_field(&mut line, b" killed ", killed as u64);
    line.push(b"\n");
    line
}

// Appends the state of a live task.
fn push_live(line: &mut LineBuf, live: &LiveTask)
    requires { length line.old ≤ 100 }
    ensures bytes { line.new ≡ line.old ++ spaced (life_words (Some live.now)) }
    ensures room { length line.new ≤ 700 }
{
    push_field(line, b" band ", u64::from(live.band));
    push_word(line, b" ", activity(live.active).as_bytes());
    push_spaced_reply(line, &Reply::Pages(live.counts));
}

// Appends the state of a task.
fn push_life(line: &mut LineBuf, life: &Option<LiveTask>)
    requires { length line.old ≤ 100 }
    ensures bytes { line.new ≡ line.old ++ spaced (life_words life.now) }
    ensures room { length line.new ≤ 700 }
{
    match life {
        Some(live) => push_live(line, live),
        None => line.push(b" dead"),
    }
}

#[tactic(auto, unfolding(crate::specs::Table::task_words))]
fn task_line(task: &TaskFacts) -> LineBuf
    ensures { result ≡ line_text (task_words task.now) }
{
    let mut line = LineBuf::new();
    push_field(&mut line, b"task ", u64::from(task.task));
    push_life(&mut line, &task.life);
    line.push(b"\n");
    line
}

// Appends the state of a mapped object.
fn push_mapped(line: &mut LineBuf, object: &MappedObject)
    requires { length line.old ≤ 100 }
    ensures bytes { line.new ≡ line.old ++ spaced (held_words (Some object.now)) }
    ensures room { length line.new ≤ 700 }
{
    push_word(line, b" ", state_name(object.state).as_bytes());
    push_field(line, b" ", u64::from(object.active));
    push_field(line, b" ", u64::from(object.inactive));
    push_field(line, b" ", u64::from(object.stored));
}

// Appends the state of an object.
fn push_held(line: &mut LineBuf, held: &Option<MappedObject>)
    requires { length line.old ≤ 100 }
    ensures bytes { line.new ≡ line.old ++ spaced (held_words held.now) }
    ensures room { length line.new ≤ 700 }
{
    match held {
        Some(object) => push_mapped(line, object),
        None => line.push(b" unmapped"),
    }
}

#[tactic(auto, unfolding(crate::specs::Table::object_words))]
fn object_line(object: &ObjectFacts) -> LineBuf
    ensures { result ≡ line_text (object_words object.now) }
{
    let mut line = LineBuf::new();
    push_field(&mut line, b"object ", u64::from(object.object));
    push_field(&mut line, b" task ", u64::from(object.first));
    push_held(&mut line, &object.held);
    line.push(b"\n");
    line
}

#[tactic(auto, using(crate::proofs::LineLaws::task_texts))]
fn add_tasks(out: &mut Vec<u8>, tasks: &[TaskFacts]) -> Result<(), NoMemory>
    ensures { OnOk result (out.new.items ≡ out.old.items ++ text_of (map task_words tasks.now)) }
{
    for task in tasks {
        append(out, task_line(task).as_slice())?;
    }
    Ok(())
}

#[tactic(auto, using(crate::proofs::LineLaws::object_texts))]
fn add_objects(out: &mut Vec<u8>, objects: &[ObjectFacts]) -> Result<(), NoMemory>
    ensures { OnOk result (out.new.items ≡ out.old.items ++ text_of (map object_words objects.now)) }
{
    for object in objects {
        append(out, object_line(object).as_slice())?;
    }
    Ok(())
}

/// The state after a history as lines of text: the numbers of entries, purges and kills, each task,
/// each object, and what Info and Purgeables answer.
#[tactic(auto, unfolding(crate::specs::Table::table_text))]
pub fn table_text(alloc: Global, facts: &Facts) -> Result<Vec<u8>, NoMemory>
    ensures { IfOk result (λ t. t.items ≡ table_text facts.now) }
{
    let mut out = Vec::new(alloc);
    let head = head_line(facts.entries, facts.purged, facts.killed);
    append(&mut out, head.as_slice())?;
    add_tasks(&mut out, &facts.tasks)?;
    add_objects(&mut out, &facts.objects)?;
    append(
        &mut out,
        reply_line(&Reply::Frames(facts.frames)).as_slice(),
    )?;
    append(
        &mut out,
        reply_line(&Reply::Tokens(facts.tokens)).as_slice(),
    )?;
    Ok(out)
}
