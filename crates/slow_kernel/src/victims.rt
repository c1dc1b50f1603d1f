//! The pages of a task, and which task is killed.

ghost use Rattle.std.specs.Prelude.{◌≡◌, ◌<◌, ◌≤◌, ◌+◌, ◌&&◌, false, not, reverse, length, map, option_map, find, nat_eq, nat_le, nat_lt, count_by, IfOk};
ghost use Rattle.std.specs.List.{list_any};
ghost use Rattle.std.specs.Option.{option_map_or};
ghost use Rattle.kernel_model.specs.Counted as counted;
ghost use Rattle.kernel_model.specs.Groups as group_spec;
ghost use Rattle.kernel_model.specs.Pages as page_spec;
ghost use Rattle.kernel_model.specs.Victims as spec;
ghost use Rattle.kernel_model.specs.Lists as lists;
ghost use Rattle.slow_kernel.specs.Tables as tables;
ghost use Rattle.slow_kernel.specs.VictimTables as victims;

use crate::mapping::task_id;
use crate::pages::{PageRow, all_rows, free, is_active, is_inactive, is_stored, small};
use crate::tasks::{TaskPass, is_internal, task_row};
use kern_ids::calls::{Limit, State};
use kern_ids::entries::{Entry, NoMemory};
use kern_ids::ids::TaskId;
use kern_ids::replies::{Cause, Counts, Reply};
use kernel_model::boot::Boot;
use std::alloc::Global;

fn is_owned(row: &PageRow, t: TaskId) -> bool
    ensures { result ≡ option_map_or (nat_eq t) row.now.owner false }
{
    match row.owner {
        Some(u) => t.get() == u.get(),
        None => false,
    }
}

fn is_nonvolatile(state: State) -> bool
    ensures { result ≡ counted.is_nonvolatile_state state }
{
    matches!(state, State::Nonvolatile)
}

fn is_volatile(state: State) -> bool
    ensures { result ≡ group_spec.is_volatile_state state }
{
    matches!(state, State::Volatile)
}

fn is_resident(row: &PageRow) -> bool
    ensures { result ≡ victims.row_resident row.now }
{
    is_active(row) || is_inactive(row)
}

/// The page counts among the resident or stored ones of t, of NONVOLATILE or VOLATILE objects.
#[tactic(auto, unfolding(crate::specs::VictimTables::row_counts))]
fn counts_for(row: &PageRow, t: TaskId, stored: bool, volatile: bool) -> bool
    ensures { result ≡ victims.row_counts t stored volatile row.now }
{
    if !is_owned(row, t) {
        return false;
    }
    let there = if stored {
        is_stored(row)
    } else {
        is_resident(row)
    };
    if !there {
        return false;
    }
    if volatile {
        is_volatile(row.state)
    } else {
        is_nonvolatile(row.state)
    }
}

fn count_in(rows: &[PageRow], t: TaskId, stored: bool, volatile: bool) -> usize
    ensures { result ≡ count_by (victims.row_counts t stored volatile) rows.now }
{
    rows.iter()
        .filter(|row| counts_for(row, t, stored, volatile))
        .count()
}

/// The pages of a task.
#[tactic(auto, using(crate::proofs::VictimTables::counts_from))]
pub fn counts(
    boot: &Boot,
    entries: &[Entry],
    rows: &[PageRow],
    t: TaskId,
) -> Result<Counts, NoMemory>
    requires { rows.now ≡ tables.all_rows boot.now (reverse entries.now) }
    ensures { IfOk result (λ c. c ≡ counted.counts boot.now (reverse entries.now) t) }
{
    let res_non = small(count_in(rows, t, false, false))?;
    let res_vol = small(count_in(rows, t, false, true))?;
    let com_non = small(count_in(rows, t, true, false))?;
    let com_vol = small(count_in(rows, t, true, true))?;
    let footprint = small(res_non as usize + com_non as usize)?;
    Ok(Counts {
        res_non,
        res_vol,
        com_non,
        com_vol,
        footprint,
    })
}

/// A task as jetsam sees it: where it is in the bands, whether it is over a fatal limit, over a
/// soft limit and eligible, and eligible.
#[derive(Clone, Copy)]
pub struct VictimRow {
    pub task: TaskId,
    pub band: u32,
    pub stamp: (usize, usize),
    pub fatal: bool,
    pub soft: bool,
    pub eligible: bool,
}

fn present_limit(pass: &TaskPass) -> Limit
    ensures { result ≡ victims.limit_in pass.now }
{
    if pass.active {
        pass.when_active
    } else {
        pass.when_inactive
    }
}

fn all_of(a: bool, b: bool, c: bool) -> bool
    ensures { result ≡ (a && b && c) }
{
    a && b && c
}

fn victim_row(
    boot: &Boot,
    entries: &[Entry],
    rows: &[PageRow],
    t: TaskId,
) -> Result<VictimRow, NoMemory>
    requires { rows.now ≡ tables.all_rows boot.now (reverse entries.now) }
    ensures { IfOk result (λ v. v ≡ victims.victim_row boot.now (reverse entries.now) t) }
{
    let footprint = counts(boot, entries, rows, t)?.footprint;
    let row = task_row(boot, entries, t);
    let limit = present_limit(&row.pass);
    let over = limit.pages < footprint;
    let eligible = row.live & !is_internal(boot, t);
    Ok(VictimRow {
        task: t,
        band: row.band,
        stamp: row.pass.stamp,
        fatal: all_of(row.live, over, limit.fatal),
        soft: all_of(eligible, over, !limit.fatal),
        eligible,
    })
}

#[tactic(auto, using(crate::proofs::Tables::table_more))]
fn victim_rows(
    alloc: Global,
    boot: &Boot,
    entries: &[Entry],
    rows: &[PageRow],
) -> Result<Vec<VictimRow>, NoMemory>
    requires { rows.now ≡ tables.all_rows boot.now (reverse entries.now) }
    ensures { IfOk result (λ v. v.items ≡ victims.victim_rows boot.now (reverse entries.now)) }
{
    let mut victims = Vec::new(alloc);
    let n = boot.tasks().len();
    for k in 0..n {
        let VictimRow {
            task,
            band,
            stamp,
            fatal,
            soft,
            eligible,
        } = victim_row(boot, entries, rows, task_id(k))?;
        victims.reserve(1).map_err(|_| NoMemory)?;
        victims.push_reserved(VictimRow {
            task,
            band,
            stamp,
            fatal,
            soft,
            eligible,
        });
    }
    Ok(victims)
}

/// Among which tasks the victim is sought.
#[derive(Clone, Copy, PartialEq, Eq)]
pub enum Among {
    OverFatal,
    OverSoft,
    Eligible,
}

fn is_among(among: Among, row: &VictimRow) -> bool
    ensures { result ≡ victims.row_among among row.now }
{
    match among {
        Among::OverFatal => row.fatal,
        Among::OverSoft => row.soft,
        Among::Eligible => row.eligible,
    }
}

fn is_before(a: (usize, usize), b: (usize, usize)) -> bool
    ensures { result ≡ lists.pair_lt a b }
{
    a.0 < b.0 || (a.0 == b.0 && a.1 < b.1)
}

fn is_lower(a: &VictimRow, b: &VictimRow) -> bool
    ensures { result ≡ victims.row_lower a.now b.now }
{
    a.band < b.band || (a.band == b.band && is_before(a.stamp, b.stamp))
}

fn has_lower(rows: &[VictimRow], among: Among, row: &VictimRow) -> bool
    ensures { result ≡ list_any (λ other. victims.row_among among other && victims.row_lower other row.now) rows.now }
{
    rows.iter()
        .any(|other| is_among(among, other) && is_lower(other, row))
}

#[tactic(auto, unfolding(crate::specs::VictimTables::row_least))]
fn is_least(rows: &[VictimRow], among: Among, row: &VictimRow) -> bool
    ensures { result ≡ victims.row_least rows.now among row.now }
{
    is_among(among, row) && !has_lower(rows, among, row)
}

fn least_in(rows: &[VictimRow], among: Among) -> Option<TaskId>
    ensures { result ≡ option_map (λ row. row.task) (find (victims.row_least rows.now among) rows.now) }
{
    match rows.iter().find(|row| is_least(rows, among, row)) {
        Some(row) => Some(row.task),
        None => None,
    }
}

/// The lowest of some tasks.
#[tactic(auto, using(crate::proofs::VictimTables::least_rows))]
fn least_task(boot: &Boot, entries: &[Entry], rows: &[VictimRow], among: Among) -> Option<TaskId>
    requires { rows.now ≡ victims.victim_rows boot.now (reverse entries.now) }
    ensures { result ≡ victims.least_among boot.now (reverse entries.now) among }
{
    least_in(rows, among)
}

/// So many frames are free that jetsam rests.
fn is_quiet(boot: &Boot, entries: &[Entry], pages: &[PageRow]) -> bool
    requires { pages.now ≡ tables.all_rows boot.now (reverse entries.now) }
    ensures { result ≡ nat_le boot.now.params.critical (page_spec.free boot.now (reverse entries.now)) }
{
    boot.params().critical <= free(boot, entries, pages)
}

/// A task killed for a shortage of frames alone.
fn by_pressure(boot: &Boot, entries: &[Entry], rows: &[VictimRow]) -> Reply
    requires { rows.now ≡ victims.victim_rows boot.now (reverse entries.now) }
    ensures { result ≡ victims.pressure_reply boot.now (reverse entries.now) }
{
    match least_task(boot, entries, rows, Among::Eligible) {
        Some(t) => Reply::Killed(t, Cause::Pressure),
        None => Reply::NoVictim,
    }
}

/// A task killed over its soft limit, or else for a shortage of frames alone.
fn by_high_water(boot: &Boot, entries: &[Entry], rows: &[VictimRow]) -> Reply
    requires { rows.now ≡ victims.victim_rows boot.now (reverse entries.now) }
    ensures { result ≡ victims.high_water_reply boot.now (reverse entries.now) }
{
    match least_task(boot, entries, rows, Among::OverSoft) {
        Some(t) => Reply::Killed(t, Cause::HighWater),
        None => by_pressure(boot, entries, rows),
    }
}

/// What Jetsam answers where no task is over a fatal limit.
fn within_limits(boot: &Boot, entries: &[Entry], pages: &[PageRow], rows: &[VictimRow]) -> Reply
    requires pages { pages.now ≡ tables.all_rows boot.now (reverse entries.now) }
    requires rows { rows.now ≡ victims.victim_rows boot.now (reverse entries.now) }
    ensures { result ≡ victims.within_limits boot.now (reverse entries.now) }
{
    if is_quiet(boot, entries, pages) {
        Reply::Quiet
    } else {
        by_high_water(boot, entries, rows)
    }
}

/// What Jetsam answers.
#[tactic(auto, using(crate::proofs::VictimTables::victim_from))]
pub fn victim(alloc: Global, boot: &Boot, entries: &[Entry]) -> Result<Reply, NoMemory>
    ensures { IfOk result (λ reply. reply ≡ spec.victim boot.now (reverse entries.now)) }
{
    let pages = all_rows(alloc, boot, entries)?;
    let rows = victim_rows(alloc, boot, entries, &pages)?;
    match least_task(boot, entries, &rows, Among::OverFatal) {
        Some(t) => Ok(Reply::Killed(t, Cause::Limit)),
        None => Ok(within_limits(boot, entries, &pages, &rows)),
    }
}
