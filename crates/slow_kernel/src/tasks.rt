//! The bands of the tasks, which tasks are due for ageing, and which task is killed.

ghost use Rattle.std.specs.Prelude.{◌≡◌, ◌<◌, ◌≤◌, ◌+◌, ◌&&◌, ◌++◌, ◌∷◌, [], ◌^◌, false, not, reverse, length, map, option_map, find, insert, filter, nat_eq, nat_le, nat_lt, IfOk, OnOk, IsTrue};
ghost use Rattle.std.specs.List.{list_any, position, position_or_len};
ghost use Rattle.std.specs.Option.{option_map_or, unwrap_or};
ghost use Rattle.kernel_model.specs.Bands as spec;
ghost use Rattle.kernel_model.specs.Mapping as mapping;
ghost use Rattle.kernel_model.specs.Victims as victims;
ghost use Rattle.kernel_model.specs.Lists as lists;
ghost use Rattle.slow_kernel.specs.TaskTables as tasks;

use crate::mapping::{is_task_at, live, task_id};
use kern_ids::calls::{Call, Limit};
use kern_ids::entries::{Entry, NoMemory};
use kern_ids::ids::{Band, TaskId};
use kern_ids::lines::TaskLine;
use kern_ids::replies::Reply;
use kernel_model::boot::Boot;
use kernel_model::events::{accepted, is_by};
use std::alloc::Global;

fn boot_band(boot: &Boot, t: TaskId) -> u32
    ensures { result ≡ spec.of_task (λ task. task.band) boot.now t 0 }
{
    match boot.tasks().get(t.get() as usize) {
        Some(task) => task.band.get(),
        None => 0,
    }
}

fn boot_ageing(boot: &Boot, t: TaskId) -> u32
    ensures { result ≡ spec.of_task (λ task. task.ageing) boot.now t 0 }
{
    match boot.tasks().get(t.get() as usize) {
        Some(task) => task.ageing.get(),
        None => 0,
    }
}

fn boot_delay(boot: &Boot, t: TaskId) -> u32
    ensures { result ≡ spec.of_task (λ task. task.delay) boot.now t 0 }
{
    match boot.tasks().get(t.get() as usize) {
        Some(task) => task.delay,
        None => 0,
    }
}

pub fn is_internal(boot: &Boot, t: TaskId) -> bool
    ensures { result ≡ spec.of_task (λ task. task.internal) boot.now t false }
{
    match boot.tasks().get(t.get() as usize) {
        Some(task) => task.internal,
        None => false,
    }
}

/// The band of an accepted SetBand naming t.
fn sets_band(t: TaskId, e: &Entry) -> Option<Band>
    ensures { result ≡ spec.sets_band t e.now }
{
    match e.call {
        Call::SetBand { task, band } => {
            if accepted(e) && t.get() == task.get() {
                Some(band)
            } else {
                None
            }
        }
        _ => None,
    }
}

/// The value of an accepted Active by a thread of t.
fn sets_active(boot: &Boot, t: TaskId, e: &Entry) -> Option<bool>
    ensures { result ≡ spec.sets_active boot.now t e.now }
{
    match e.call {
        Call::Active { on } => {
            if accepted(e) && is_by(boot, t, e) {
                Some(on)
            } else {
                None
            }
        }
        _ => None,
    }
}

/// The limits of an accepted SetLimits naming t, active and inactive.
#[tactic(auto, unfolding(crate::specs::TaskTables::tells_limits))]
fn sets_limits(t: TaskId, e: &Entry) -> Option<(Limit, Limit)>
    ensures { result ≡ option_map (λ l. (l.when_active, l.when_inactive)) (tasks.tells_limits t e.now) }
{
    match e.call {
        Call::SetLimits {
            task,
            active,
            inactive,
        } => {
            if accepted(e) && t.get() == task.get() {
                Some((active, inactive))
            } else {
                None
            }
        }
        _ => None,
    }
}

/// What is known of a task while the entries are looked through.
#[derive(Clone, Copy)]
pub struct TaskPass {
    /// The band that it wishes.
    pub wish: u32,
    pub active: bool,
    pub when_active: Limit,
    pub when_inactive: Limit,
    /// It is in its band by ageing.
    pub aged: bool,
    /// The entry that placed it there, counted from 1, and its place among those that this entry placed.
    pub stamp: (usize, usize),
    /// The Ticks since its count began anew.
    pub ticks: usize,
}

#[tactic(auto, unfolding(crate::specs::TaskTables::start_pass))]
fn start_pass(boot: &Boot, t: TaskId) -> TaskPass
    ensures value { result ≡ tasks.start_pass boot.now t }
    ensures ticks { result.ticks ≡ 0 }
{
    let none = Limit {
        pages: 0,
        fatal: false,
    };
    let (when_active, when_inactive) = match boot.tasks().get(t.get() as usize) {
        Some(task) => (task.active, task.inactive),
        None => (none, none),
    };
    TaskPass {
        wish: boot_band(boot, t),
        active: false,
        when_active,
        when_inactive,
        aged: false,
        stamp: (0, t.get() as usize),
        ticks: 0,
    }
}

/// The place of t in the list, or its length.
fn place_in(line: &TaskLine, t: TaskId) -> usize
    ensures place { result ≡ position_or_len (nat_eq t) line.now }
    ensures bound { result ≤ length line.now }
{
    for i in 0..line.len() {
        if is_task_at(line, i, t) {
            return i;
        }
    }
    line.len()
}

/// The place of t in the list of an ageing.
#[tactic(auto, using(crate::proofs::Positions::position_bound))]
fn aged_place(t: TaskId, e: &Entry) -> Option<usize>
    ensures { result ≡ spec.aged_place t e.now }
{
    match &e.reply {
        Reply::Aged(line) => {
            let i = place_in(line, t);
            if i < line.len() { Some(i) } else { None }
        }
        _ => None,
    }
}

/// An accepted Active whose value differs from the one before.
fn changes(boot: &Boot, t: TaskId, active: bool, e: &Entry) -> bool
    ensures { result ≡ option_map_or (spec.differs active) (spec.sets_active boot.now t e.now) false }
{
    match sets_active(boot, t, e) {
        Some(on) => on != active,
        None => false,
    }
}

#[tactic(auto, unfolding(crate::specs::TaskTables::tells_placing))]
fn tells_placing(
    boot: &Boot,
    t: TaskId,
    wish: u32,
    active: bool,
    e: &Entry,
) -> Option<(bool, usize)>
    ensures { result ≡ tasks.tells_placing boot.now t wish active e.now }
{
    if sets_band(t, e).is_some() || (changes(boot, t, active, e) && wish == 0) {
        return Some((false, 0));
    }
    match aged_place(t, e) {
        Some(i) => Some((true, i)),
        None => None,
    }
}

fn stops(boot: &Boot, t: TaskId, active: bool, e: &Entry) -> bool
    ensures { result ≡ option_map_or (λ on. not on && active) (spec.sets_active boot.now t e.now) false }
{
    match sets_active(boot, t, e) {
        Some(on) => !on && active,
        None => false,
    }
}

fn wishes_none(t: TaskId, e: &Entry) -> bool
    ensures { result ≡ option_map_or (nat_eq 0) (spec.sets_band t e.now) false }
{
    match sets_band(t, e) {
        Some(band) => band.get() == 0,
        None => false,
    }
}

#[tactic(auto, unfolding(crate::specs::TaskTables::tells_restart))]
fn tells_restart(boot: &Boot, t: TaskId, active: bool, e: &Entry) -> bool
    ensures { result ≡ tasks.tells_restart boot.now t active e.now }
{
    stops(boot, t, active, e) || wishes_none(t, e)
}

#[tactic(auto, unfolding(crate::specs::TaskTables::next_ticks))]
fn next_ticks(boot: &Boot, t: TaskId, active: bool, was: usize, e: &Entry) -> usize
    requires { was < 2 ^ 63 }
    ensures value { result ≡ tasks.next_ticks boot.now t active was e.now }
    ensures bound { result ≤ was + 1 }
{
    if tells_restart(boot, t, active, e) {
        return 0;
    }
    match e.call {
        Call::Tick => 1 + was,
        _ => was,
    }
}

fn next_wish(t: TaskId, was: u32, e: &Entry) -> u32
    ensures { result ≡ unwrap_or (spec.sets_band t e.now) was }
{
    match sets_band(t, e) {
        Some(band) => band.get(),
        None => was,
    }
}

fn next_active(boot: &Boot, t: TaskId, was: bool, e: &Entry) -> bool
    ensures { result ≡ unwrap_or (spec.sets_active boot.now t e.now) was }
{
    match sets_active(boot, t, e) {
        Some(on) => on,
        None => was,
    }
}

fn next_limits(t: TaskId, was: (Limit, Limit), e: &Entry) -> (Limit, Limit)
    ensures active { result.0 ≡ option_map_or (λ l. l.when_active) (tasks.tells_limits t e.now) was.0 }
    ensures inactive { result.1 ≡ option_map_or (λ l. l.when_inactive) (tasks.tells_limits t e.now) was.1 }
{
    match sets_limits(t, e) {
        Some(limits) => limits,
        None => was,
    }
}

fn next_placing(
    boot: &Boot,
    t: TaskId,
    n: usize,
    was: &TaskPass,
    e: &Entry,
) -> (bool, (usize, usize))
    requires { n < 2 ^ 63 }
    ensures aged { result.0 ≡ option_map_or (λ x. x.0) (tasks.tells_placing boot.now t was.now.wish was.now.active e.now) was.now.aged }
    ensures stamp { result.1 ≡ option_map_or (λ x. (n + 1, x.1)) (tasks.tells_placing boot.now t was.now.wish was.now.active e.now) was.now.stamp }
{
    match tells_placing(boot, t, was.wish, was.active, e) {
        Some((aged, place)) => (aged, (n + 1, place)),
        None => (was.aged, was.stamp),
    }
}

/// What is known of t after entry n.
#[tactic(auto, unfolding(crate::specs::TaskTables::next_pass))]
fn next_pass(boot: &Boot, t: TaskId, n: usize, was: TaskPass, e: &Entry) -> TaskPass
    requires few { n < 2 ^ 63 }
    requires ticks { was.ticks < 2 ^ 63 }
    ensures value { result ≡ tasks.next_pass boot.now t n was e.now }
    ensures bound { result.ticks ≤ was.ticks + 1 }
{
    let (aged, stamp) = next_placing(boot, t, n, &was, e);
    let (when_active, when_inactive) = next_limits(t, (was.when_active, was.when_inactive), e);
    TaskPass {
        wish: next_wish(t, was.wish, e),
        active: next_active(boot, t, was.active, e),
        when_active,
        when_inactive,
        aged,
        stamp,
        ticks: next_ticks(boot, t, was.active, was.ticks, e),
    }
}

/// What is known of a task after these entries.
#[tactic(auto, using(crate::proofs::TaskTables::task_pass_none, crate::proofs::TaskTables::task_pass_loop))]
pub fn task_pass(boot: &Boot, entries: &[Entry], t: TaskId) -> TaskPass
    ensures { result ≡ tasks.task_pass boot.now (reverse entries.now) t }
{
    let mut pass = start_pass(boot, t);
    for (i, e) in entries.iter().enumerate() {
        pass = next_pass(boot, t, i, pass, e);
    }
    pass
}

fn band_in(boot: &Boot, t: TaskId, pass: &TaskPass) -> u32
    ensures { result ≡ tasks.band_in boot.now t pass.now }
{
    if pass.aged {
        0
    } else if pass.wish == 0 {
        boot_ageing(boot, t)
    } else {
        pass.wish
    }
}

/// A task with what is known of it.
#[derive(Clone, Copy)]
pub struct TaskRow {
    pub task: TaskId,
    pub live: bool,
    pub band: u32,
    pub pass: TaskPass,
}

/// What is known of a task after these entries.
#[tactic(auto, using(crate::proofs::TaskTables::band_from))]
pub fn task_row(boot: &Boot, entries: &[Entry], t: TaskId) -> TaskRow
    ensures { result ≡ tasks.task_row boot.now (reverse entries.now) t }
{
    let pass = task_pass(boot, entries, t);
    TaskRow {
        task: t,
        live: live(boot, entries, t),
        band: band_in(boot, t, &pass),
        pass,
    }
}

/// Stamp a is before stamp b.
fn is_before(a: (usize, usize), b: (usize, usize)) -> bool
    ensures { result ≡ lists.pair_lt a b }
{
    a.0 < b.0 || (a.0 == b.0 && a.1 < b.1)
}

/// Row a is lower in the bands than row b.
pub fn is_lower(a: &TaskRow, b: &TaskRow) -> bool
    ensures { result ≡ tasks.row_lower a.now b.now }
{
    a.band < b.band || (a.band == b.band && is_before(a.pass.stamp, b.pass.stamp))
}

/// This Tick would be at least the delay-th.
fn has_waited(delay: u32, ticks: usize) -> bool
    ensures { result ≡ nat_le delay (ticks + 1) }
{
    delay == 0 || delay as usize - 1 <= ticks
}

fn is_due(boot: &Boot, row: &TaskRow) -> bool
    ensures { result ≡ tasks.row_due boot.now row.now }
{
    row.live
        && !row.pass.active
        && row.pass.wish == 0
        && row.band == boot_ageing(boot, row.task)
        && has_waited(boot_delay(boot, row.task), row.pass.ticks)
}

/// The place of t among these tasks in the order of the bands.
fn first_above(boot: &Boot, entries: &[Entry], due: &[TaskId], t: TaskId) -> Option<usize>
    ensures { result ≡ position (victims.band_lt boot.now (reverse entries.now) t) due.now }
{
    let row = task_row(boot, entries, t);
    due.iter()
        .position(|u| is_lower(&row, &task_row(boot, entries, *u)))
}

fn place_for(boot: &Boot, entries: &[Entry], due: &[TaskId], t: TaskId) -> usize
    ensures place { result ≡ position_or_len (victims.band_lt boot.now (reverse entries.now) t) due.now }
    ensures bound { result ≤ length due.now }
{
    match first_above(boot, entries, due, t) {
        Some(i) => i,
        None => due.len(),
    }
}

fn insert_at(due: &mut Vec<TaskId>, at: usize, t: TaskId) -> Result<(), NoMemory>
    requires { at ≤ length due.old.items }
    ensures { OnOk result (due.new.items ≡ insert due.old.items at t) }
{
    due.insert(at, t).map_err(|_| NoMemory)?;
    Ok(())
}

/// Puts t in its place.
fn put(boot: &Boot, entries: &[Entry], t: TaskId, due: &mut Vec<TaskId>) -> Result<(), NoMemory>
    ensures { OnOk result (due.new.items ≡ lists.put (victims.band_lt boot.now (reverse entries.now)) t due.old.items) }
{
    let at = place_for(boot, entries, due, t);
    insert_at(due, at, t)
}

fn is_task_due(boot: &Boot, entries: &[Entry], t: TaskId) -> bool
    ensures { result ≡ spec.due boot.now (reverse entries.now) t }
{
    is_due(boot, &task_row(boot, entries, t))
}

/// Adds t in its place, if it is due.
fn add_due(boot: &Boot, entries: &[Entry], t: TaskId, due: &mut Vec<TaskId>) -> Result<(), NoMemory>
    ensures { OnOk result (due.new.items ≡ tasks.with_due boot.now (reverse entries.now) t due.old.items) }
{
    if is_task_due(boot, entries, t) {
        put(boot, entries, t, due)
    } else {
        Ok(())
    }
}

/// The tasks that are due for ageing, in the order of the bands.
#[tactic(auto, using(crate::proofs::TaskTables::last_none, crate::proofs::TaskTables::last_more, crate::proofs::TaskTables::last_all))]
fn due_tasks(alloc: Global, boot: &Boot, entries: &[Entry]) -> Result<Vec<TaskId>, NoMemory>
    ensures { IfOk result (λ v. v.items ≡ lists.in_order (victims.band_lt boot.now (reverse entries.now)) (filter (spec.due boot.now (reverse entries.now)) (mapping.tasks_of boot.now))) }
{
    let mut due = Vec::new(alloc);
    let n = boot.tasks().len();
    for i in 0..n {
        add_due(boot, entries, task_id(n - 1 - i), &mut due)?;
    }
    Ok(due)
}

fn line_of(due: &[TaskId]) -> TaskLine
    requires { length due.now ≤ 64 }
    ensures { result ≡ due.now }
{
    let mut line = TaskLine::new();
    for t in due {
        line.push(*t);
    }
    line
}

/// What a Tick answers.
#[tactic(auto, using(crate::proofs::TaskTables::few_due))]
pub fn tick(alloc: Global, boot: &Boot, entries: &[Entry]) -> Result<Reply, NoMemory>
    ensures { IfOk result (λ reply. reply ≡ Reply.Aged (lists.in_order (victims.band_lt boot.now (reverse entries.now)) (filter (spec.due boot.now (reverse entries.now)) (mapping.tasks_of boot.now)))) }
{
    let due = due_tasks(alloc, boot, entries)?;
    let _tasks = boot.tasks();
    Ok(Reply::Aged(line_of(&due)))
}
