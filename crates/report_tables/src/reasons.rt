//! Why an entry was answered as it was, found by looking back through the entries before it.

ghost use Rattle.std.specs.Prelude.{◌≡◌, reverse, option_map, IfOk};
ghost use Rattle.kernel_model.specs.Deadlines.{ripe_queue};
ghost use Rattle.slow_kernel.specs.VictimTables.{limit_in};
ghost use Rattle.report_tables.specs.Reasons as spec;

use crate::reason::Reason;
use kern_ids::calls::{Call, State, Wish};
use kern_ids::entries::{Entry, NoMemory};
use kern_ids::ids::{ObjId, TaskId};
use kern_ids::replies::{Cause, Reply};
use kernel_model::boot::Boot;
use kernel_model::events::{asked, is_purge};
use slow_kernel::deadlines::{deadlines, ripe_of};
use slow_kernel::groups::standing;
use slow_kernel::pages::{all_rows, free, left};
use slow_kernel::states::next_state;
use slow_kernel::tasks::{TaskPass, task_row};
use slow_kernel::victims::counts;
use std::alloc::Global;

fn is_emptied_by(was: State, o: ObjId, e: &Entry) -> bool
    ensures { result ≡ spec.emptied_by was o e.now }
{
    is_purge(o, e) || (matches!(asked(o, e), Some(Wish::Empty)) && !matches!(was, State::Empty))
}

#[tactic(auto, unfolding(crate::specs::Reasons::next_emptied))]
fn next_emptied(was: State, o: ObjId, n: usize, found: Option<usize>, e: &Entry) -> Option<usize>
    ensures { result ≡ spec.next_emptied was o n found e.now }
{
    if is_emptied_by(was, o, e) {
        Some(n)
    } else {
        found
    }
}

/// The newest of these entries that emptied o by a purge or a SetState EMPTY.
#[tactic(auto, using(slow_kernel::proofs::Loops::state_loop, slow_kernel::proofs::Loops::state_none, crate::proofs::Emptied::emptied_loop, crate::proofs::Emptied::emptied_none))]
fn emptied_at(entries: &[Entry], o: ObjId) -> Option<usize>
    ensures { result ≡ spec.emptied_at (reverse entries.now) o }
{
    let mut state = State::Nonvolatile;
    let mut found = None;
    for (i, e) in entries.iter().enumerate() {
        found = next_emptied(state, o, i, found, e);
        state = next_state(o, state, e);
    }
    found
}

fn first_deadline(list: &[usize]) -> usize
    ensures { result ≡ spec.first_deadline list.now }
{
    match list {
        [first, ..] => *first,
        [] => 0,
    }
}

fn ripe_reason(
    alloc: Global,
    boot: &Boot,
    before: &[Entry],
    o: ObjId,
) -> Result<Option<Reason>, NoMemory>
    ensures { IfOk result (λ r. r ≡ option_map (spec.ripe_reason boot.now (reverse before.now) o) (ripe_queue boot.now (reverse before.now))) }
{
    let rows = all_rows(alloc, boot, before)?;
    let gone = left(boot, before, &rows);
    let lists = deadlines(alloc, boot, before)?;
    let stands = standing(before, o);
    match ripe_of(gone, &lists) {
        Some(tokens) => {
            let deadline = first_deadline(lists.of(tokens));
            Ok(Some(Reason::Ripe(tokens, deadline, gone, stands.group, o.get(), stands.queue)))
        }
        None => Ok(None),
    }
}

fn forced_reason(before: &[Entry], o: ObjId) -> Reason
    ensures { result ≡ spec.forced_reason (reverse before.now) o }
{
    let stands = standing(before, o);
    Reason::Forced(stands.queue, stands.group, o.get())
}

fn purge_reason(
    alloc: Global,
    boot: &Boot,
    before: &[Entry],
    call: &Call,
    o: ObjId,
) -> Result<Option<Reason>, NoMemory>
    ensures { IfOk result (λ r. r ≡ spec.purge_reason boot.now (reverse before.now) call.now o) }
{
    match call {
        Call::PurgeOne => Ok(ripe_reason(alloc, boot, before, o)?),
        Call::Scan => Ok(ripe_reason(alloc, boot, before, o)?),
        Call::Forced => Ok(Some(forced_reason(before, o))),
        _ => Ok(None),
    }
}

fn limit_pages(pass: &TaskPass) -> u32
    ensures { result ≡ (limit_in pass.now).pages }
{
    if pass.active {
        pass.when_active.pages
    } else {
        pass.when_inactive.pages
    }
}

fn killed_reason(
    alloc: Global,
    boot: &Boot,
    before: &[Entry],
    t: TaskId,
    cause: Cause,
) -> Result<Reason, NoMemory>
    ensures { IfOk result (λ r. r ≡ spec.killed_reason boot.now (reverse before.now) t cause) }
{
    let rows = all_rows(alloc, boot, before)?;
    let footprint = counts(boot, before, &rows, t)?.footprint;
    let row = task_row(boot, before, t);
    Ok(Reason::Killed(
        cause,
        row.band,
        footprint,
        limit_pages(&row.pass),
        free(boot, before, &rows),
    ))
}

fn set_object(call: &Call) -> Option<ObjId>
    ensures { result ≡ spec.set_object call.now }
{
    match call {
        Call::SetState { obj, .. } => Some(*obj),
        _ => None,
    }
}

fn asked_object(call: &Call) -> Option<ObjId>
    ensures { result ≡ spec.asked_object call.now }
{
    match call {
        Call::GetState { obj } => Some(*obj),
        _ => None,
    }
}

fn emptied_reason(before: &[Entry], o: ObjId) -> Option<Reason>
    ensures { result ≡ option_map Reason.Emptied (spec.emptied_at (reverse before.now) o) }
{
    match emptied_at(before, o) {
        Some(entry) => Some(Reason::Emptied(entry)),
        None => None,
    }
}

fn state_reason(before: &[Entry], state: State, o: Option<ObjId>) -> Option<Reason>
    ensures { result ≡ spec.state_reason (reverse before.now) state o }
{
    match state {
        State::Empty => match o {
            Some(o) => emptied_reason(before, o),
            None => None,
        },
        _ => None,
    }
}

/// Why this call had this reply after these entries: a ripe or a forced purge, a kill, or a SetState or
/// GetState that answers EMPTY. None of every other answer.
pub fn reason(
    alloc: Global,
    boot: &Boot,
    before: &[Entry],
    call: &Call,
    reply: &Reply,
) -> Result<Option<Reason>, NoMemory>
    ensures { IfOk result (λ r. r ≡ spec.reason_of boot.now (reverse before.now) call.now reply.now) }
{
    match reply {
        Reply::Purged(o) => Ok(purge_reason(alloc, boot, before, call, *o)?),
        Reply::Killed(t, cause) => {
            let killed = killed_reason(alloc, boot, before, *t, *cause)?;
            Ok(Some(killed))
        }
        Reply::Old(old) => Ok(state_reason(before, *old, set_object(call))),
        Reply::Is(now) => Ok(state_reason(before, *now, asked_object(call))),
        _ => Ok(None),
    }
}
