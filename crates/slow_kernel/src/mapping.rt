//! Which tasks are live, and which objects they map.

ghost use Rattle.std.specs.Prelude.{◌≡◌, ◌<◌, ◌||◌, ◌&&◌, not, ◌+◌, reverse, [], length, nat_eq, get_or, IfOk, option_map, find};
ghost use Rattle.std.specs.List.{list_any};
ghost use Rattle.kernel_model.specs.Mapping as mapping;
ghost use Rattle.kernel_model.specs.Answers as answers;
ghost use Rattle.slow_kernel.specs.Tables as tables;

use kern_ids::calls::Call;
use kern_ids::entries::{Entry, NoMemory};
use kern_ids::ids::{ObjId, TaskId};
use kern_ids::lines::TaskLine;
use kern_ids::replies::Reply;
use kernel_model::boot::Boot;
use kernel_model::events::{accepted, is_attach, is_by, is_end, is_map, is_unmap};
use std::alloc::Global;

/// The task of a number.
pub fn task_id(n: usize) -> TaskId
    requires { n < 64 }
    ensures { result ≡ n }
{
    match TaskId::new(n as u32) {
        Some(t) => t,
        None => unreachable!(),
    }
}

/// Task t is live after one entry more.
#[tactic(auto, unfolding(kernel_model::specs::Mapping::next_live))]
fn next_live(boot: &Boot, t: TaskId, was: bool, e: &Entry) -> bool
    ensures { result ≡ mapping.next_live boot.now t was e.now }
{
    !is_end(boot, t, e) && was
}

/// No entry is an end of t.
#[tactic(auto, using(crate::proofs::Loops::live_loop, crate::proofs::Loops::live_none))]
pub fn live(boot: &Boot, entries: &[Entry], t: TaskId) -> bool
    ensures { result ≡ mapping.live boot.now (reverse entries.now) t }
{
    let mut live = true;
    for e in entries {
        live = next_live(boot, t, live, e);
    }
    live
}

/// What one entry more says of t mapping o.
#[tactic(auto, unfolding(kernel_model::specs::Mapping::next_said))]
fn next_said(boot: &Boot, o: ObjId, t: TaskId, was: bool, e: &Entry) -> bool
    ensures { result ≡ mapping.next_said boot.now o t was e.now }
{
    if (is_map(o, e) || is_attach(o, e)) && is_by(boot, t, e) {
        true
    } else if is_unmap(o, e) && is_by(boot, t, e) {
        false
    } else {
        was
    }
}

/// What the entries say of t mapping o, whether it lives or not.
#[tactic(auto, using(crate::proofs::Loops::said_loop, crate::proofs::Loops::said_none))]
pub fn said_maps(boot: &Boot, entries: &[Entry], o: ObjId, t: TaskId) -> bool
    ensures { result ≡ mapping.said_maps boot.now (reverse entries.now) o t }
{
    let mut maps = false;
    for e in entries {
        maps = next_said(boot, o, t, maps, e);
    }
    maps
}

/// Task t maps o after these entries.
#[tactic(auto, unfolding(kernel_model::specs::Mapping::maps))]
pub fn maps(boot: &Boot, entries: &[Entry], o: ObjId, t: TaskId) -> bool
    ensures { result ≡ mapping.maps boot.now (reverse entries.now) o t }
{
    live(boot, entries, t) && said_maps(boot, entries, o, t)
}

/// One of the two holds.
pub fn or(a: bool, b: bool) -> bool
    ensures { result ≡ a || b }
{
    a || b
}

/// The first holds and the second doesn't.
fn and_not(a: bool, b: bool) -> bool
    ensures { result ≡ a && not b }
{
    a && !b
}

/// Some task maps o after these entries.
#[tactic(auto, using(kernel_model::proofs::Ranges::any_range), unfolding(kernel_model::specs::Mapping::mapped))]
pub fn mapped(boot: &Boot, entries: &[Entry], o: ObjId) -> bool
    ensures { result ≡ mapping.mapped boot.now (reverse entries.now) o }
{
    let n = boot.tasks().len();
    let mut mapped = false;
    for i in 0..n {
        if let Some(t) = TaskId::new(i as u32) {
            mapped = or(mapped, maps(boot, entries, o, t));
        }
    }
    mapped
}

/// Task t is one of the object's tasks.
pub fn shares(boot: &Boot, o: ObjId, t: TaskId) -> bool
    ensures { result ≡ answers.shares boot.now o t }
{
    match boot.objects().get(o.get() as usize) {
        Some(object) => has_task(&object.tasks, t),
        None => false,
    }
}

pub fn is_task_at(tasks: &TaskLine, i: usize, t: TaskId) -> bool
    requires { i < length tasks.now }
    ensures { result ≡ nat_eq t (get_or tasks.now i 0) }
{
    match tasks.get(i) {
        Some(x) => t.get() == x.get(),
        None => unreachable!(),
    }
}

#[tactic(auto, using(std::proofs::lemmas::List::Folds::list_any_more))]
fn has_task(tasks: &TaskLine, t: TaskId) -> bool
    ensures { result ≡ list_any (nat_eq t) tasks.now }
{
    let mut found = false;
    for i in 0..tasks.len() {
        found = or(found, is_task_at(tasks, i, t));
    }
    found
}

/// What is known of a task and an object: whether it lives, and whether it was last said to map it.
#[derive(Clone, Copy)]
pub struct Mapper {
    pub task: TaskId,
    pub live: bool,
    pub said: bool,
}

#[tactic(auto, using(crate::proofs::Mappers::mapper_loop))]
fn next_mapper(boot: &Boot, entries: &[Entry], i: usize, o: ObjId, was: Mapper) -> Mapper
    requires at { i < length entries.now }
    requires before { was ≡ tables.mapper boot.now (tables.past_at entries.now i) o was.task }
    ensures { result ≡ tables.mapper boot.now (tables.past_at entries.now (i + 1)) o was.task }
{
    let e = &entries[i];
    Mapper {
        task: was.task,
        live: next_live(boot, was.task, was.live, e),
        said: next_said(boot, o, was.task, was.said, e),
    }
}

/// The table of all tasks before the first entry.
#[tactic(auto, using(crate::proofs::Mappers::mapper_none, crate::proofs::Tables::table_more))]
pub fn start_mappers(alloc: Global, boot: &Boot, o: ObjId) -> Result<Vec<Mapper>, NoMemory>
    ensures { IfOk result (λ v. v.items ≡ tables.mappers boot.now [] o) }
{
    let mut mappers = Vec::new(alloc);
    let n = boot.tasks().len();
    for k in 0..n {
        mappers.reserve(1).map_err(|_| NoMemory)?;
        mappers.push_reserved(Mapper {
            task: task_id(k),
            live: true,
            said: false,
        });
    }
    Ok(mappers)
}

fn update_mappers(boot: &Boot, entries: &[Entry], i: usize, o: ObjId, mappers: &mut [Mapper])
    requires at { i < length entries.now }
    requires before { mappers.old ≡ tables.mappers boot.now (tables.past_at entries.now i) o }
    ensures { mappers.new ≡ tables.mappers boot.now (tables.past_at entries.now (i + 1)) o }
{
    for k in 0..mappers.len() {
        let was = mappers[k];
        mappers[k] = next_mapper(boot, entries, i, o, was);
    }
}

/// Some task of the table maps the object.
pub fn is_mapped(mappers: &[Mapper]) -> bool
    ensures { result ≡ list_any tables.is_mapping mappers.now }
{
    mappers.iter().any(|m| m.live && m.said)
}

/// The entry may change who maps o.
#[tactic(auto, unfolding(crate::specs::Tables::tells_mapping))]
fn tells_mapping(o: ObjId, e: &Entry) -> bool
    ensures { result ≡ tables.tells_mapping o e.now }
{
    is_map(o, e)
        || is_attach(o, e)
        || is_unmap(o, e)
        || (accepted(e) && matches!(e.call, Call::Exit))
        || matches!(e.reply, Reply::Killed(_, _))
}

/// Brings the table from before entry i to after it, and answers whether that entry takes o out of the
/// last task that maps it.
pub fn advance_mappers(
    boot: &Boot,
    entries: &[Entry],
    i: usize,
    o: ObjId,
    mappers: &mut [Mapper],
) -> bool
    requires at { i < length entries.now }
    requires before { mappers.old ≡ tables.mappers boot.now (tables.past_at entries.now i) o }
    ensures after { mappers.new ≡ tables.mappers boot.now (tables.past_at entries.now (i + 1)) o }
    ensures unmapped { result ≡ tables.unmapped_at boot.now entries.now i o }
{
    if !tells_mapping(o, &entries[i]) {
        return false;
    }
    let was = is_mapped(mappers);
    update_mappers(boot, entries, i, o, mappers);
    and_not(was, is_mapped(mappers))
}

/// The first task of the table that maps the object.
pub fn owner_in(mappers: &[Mapper]) -> Option<TaskId>
    ensures { result ≡ option_map (λ m. m.task) (find tables.is_mapping mappers.now) }
{
    match mappers.iter().find(|m| m.live && m.said) {
        Some(m) => Some(m.task),
        None => None,
    }
}

/// Entry i takes o out of the last task that maps it.
#[tactic(auto, using(crate::proofs::Mappers::unmapped_still), unfolding(crate::specs::Tables::unmapped_at))]
pub fn is_unmapped_at(boot: &Boot, entries: &[Entry], i: usize, o: ObjId) -> bool
    requires { i < length entries.now }
    ensures { result ≡ tables.unmapped_at boot.now entries.now i o }
{
    if !tells_mapping(o, &entries[i]) {
        return false;
    }
    and_not(
        mapped(boot, &entries[..i], o),
        mapped(boot, &entries[..i + 1], o),
    )
}
