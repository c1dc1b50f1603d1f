//! What the kernel answers, computed from the entries alone.

ghost use Rattle.std.specs.Prelude.{◌≡◌, ◌<◌, ◌≤◌, ◌+◌, reverse, length, IfOk, false, map};
ghost use Rattle.std.specs.Option.{option_map_or, unwrap_or};
ghost use Rattle.std.specs.List.{range_with_len};
ghost use Rattle.kernel_model.specs.Answers as spec;
ghost use Rattle.kernel_model.specs.Bands as bands;
ghost use Rattle.kernel_model.specs.Choice as choice;
ghost use Rattle.kernel_model.specs.Contents as contents;
ghost use Rattle.kernel_model.specs.Counted as counted;
ghost use Rattle.kernel_model.specs.Events as events;
ghost use Rattle.kernel_model.specs.State as states;
ghost use Rattle.slow_kernel.specs.Slow as slow;

use crate::contents::bytes;
use crate::groups::{forced, object_rows};
use crate::mapping::{live, mapped, maps, shares};
use crate::pages::{all_rows, free, needed, pages_in, small};
use crate::scan::{frames, pick, scan, tokens};
use crate::states::{is_empty, state};
use crate::tasks::{task_pass, tick};
use crate::victims::{counts, victim};
use kern_ids::calls::{Call, decode_word};
use kern_ids::entries::{Entry, NoMemory};
use kern_ids::ids::{ObjId, TaskId, ThreadId};
use kern_ids::replies::{Refusal, Reply};
use kernel_model::boot::Boot;
use kernel_model::events::task_of;
use std::alloc::Global;

/// The object that a call names.
pub fn object_of(call: &Call) -> Option<ObjId>
    ensures { result ≡ spec.object_of call.now }
{
    match call {
        Call::Map { obj } => Some(*obj),
        Call::Attach { obj } => Some(*obj),
        Call::Unmap { obj } => Some(*obj),
        Call::Write { obj, .. } => Some(*obj),
        Call::Read { obj, .. } => Some(*obj),
        Call::SetState { obj, .. } => Some(*obj),
        Call::GetState { obj } => Some(*obj),
        _ => None,
    }
}

/// The task that a SetBand or a SetLimits names.
pub fn named_task(call: &Call) -> Option<TaskId>
    ensures { result ≡ spec.named_task call.now }
{
    match call {
        Call::SetBand { task, .. } => Some(*task),
        Call::SetLimits { task, .. } => Some(*task),
        _ => None,
    }
}

fn is_dead(boot: &Boot, entries: &[Entry], t: Option<TaskId>) -> bool
    ensures { result ≡ spec.is_dead boot.now (reverse entries.now) t }
{
    match t {
        Some(t) => !live(boot, entries, t),
        None => false,
    }
}

fn is_stranger(boot: &Boot, t: TaskId, call: &Call) -> bool
    ensures { result ≡ spec.is_stranger boot.now t call.now }
{
    match object_of(call) {
        Some(o) => !shares(boot, o, t),
        None => false,
    }
}

fn no_object(boot: &Boot, entries: &[Entry], t: TaskId, call: &Call) -> bool
    ensures { result ≡ spec.no_object boot.now (reverse entries.now) t call.now }
{
    match call {
        Call::Attach { obj } => !mapped(boot, entries, *obj),
        Call::Unmap { obj } => !maps(boot, entries, *obj, t),
        Call::Write { obj, .. } => !maps(boot, entries, *obj, t),
        Call::Read { obj, .. } => !maps(boot, entries, *obj, t),
        Call::SetState { obj, .. } => !maps(boot, entries, *obj, t),
        Call::GetState { obj } => !maps(boot, entries, *obj, t),
        _ => false,
    }
}

fn already(boot: &Boot, entries: &[Entry], t: TaskId, call: &Call) -> bool
    ensures { result ≡ spec.already boot.now (reverse entries.now) t call.now }
{
    match call {
        Call::Map { obj } => mapped(boot, entries, *obj),
        Call::Attach { obj } => maps(boot, entries, *obj, t),
        _ => false,
    }
}

fn invalid(call: &Call) -> bool
    ensures { result ≡ spec.invalid call.now }
{
    match call {
        Call::SetState { word, .. } => decode_word(*word).is_none(),
        _ => false,
    }
}

fn bad_range(boot: &Boot, o: ObjId, off: u32, len: u32) -> bool
    ensures { result ≡ spec.bad_range boot.now o off len }
{
    len == 0 || 256 < len || 4096 * (pages_in(boot, o) as u64) < off as u64 + len as u64
}

fn out_of_range(boot: &Boot, call: &Call) -> bool
    ensures { result ≡ spec.out_of_range boot.now call.now }
{
    match call {
        Call::Write { obj, off, bytes } => {
            bad_range(boot, *obj, *off, bytes.as_slice().len() as u32)
        }
        Call::Read { obj, off, len } => bad_range(boot, *obj, *off, *len),
        _ => false,
    }
}

fn emptied(entries: &[Entry], call: &Call) -> bool
    ensures { result ≡ spec.emptied (reverse entries.now) call.now }
{
    match call {
        Call::Write { obj, .. } => is_empty(entries, *obj),
        _ => false,
    }
}

/// More pages are needed than frames are free.
fn short_by(needed: usize, free: u32) -> Result<Option<Refusal>, NoMemory>
    ensures { IfOk result (λ why. why ≡ slow.short_by needed free) }
{
    if (free as usize) < needed {
        let needed = small(needed)?;
        Ok(Some(Refusal::Shortage { needed, free }))
    } else {
        Ok(None)
    }
}

#[tactic(auto, unfolding(kernel_model::specs::Answers::short_of))]
fn short_of(
    alloc: Global,
    boot: &Boot,
    entries: &[Entry],
    o: ObjId,
    off: u32,
    len: u32,
) -> Result<Option<Refusal>, NoMemory>
    ensures { IfOk result (λ why. why ≡ spec.short_of boot.now (reverse entries.now) (spec.needed boot.now (reverse entries.now) o off len)) }
{
    let needed = needed(alloc, boot, entries, o, off, len)?;
    let rows = all_rows(alloc, boot, entries)?;
    Ok(short_by(needed, free(boot, entries, &rows))?)
}

fn shortage(
    alloc: Global,
    boot: &Boot,
    entries: &[Entry],
    call: &Call,
) -> Result<Option<Refusal>, NoMemory>
    ensures { IfOk result (λ why. why ≡ spec.shortage boot.now (reverse entries.now) call.now) }
{
    match call {
        Call::Write { obj, off, bytes } => {
            let len = bytes.as_slice().len() as u32;
            Ok(short_of(alloc, boot, entries, *obj, *off, len)?)
        }
        Call::Read { obj, off, len } => {
            if is_empty(entries, *obj) {
                Ok(None)
            } else {
                Ok(short_of(alloc, boot, entries, *obj, *off, *len)?)
            }
        }
        _ => Ok(None),
    }
}

/// The task of a task thread.
fn caller(boot: &Boot, who: ThreadId) -> TaskId
    ensures { result ≡ unwrap_or (events.task_of boot.now who) 0 }
{
    match task_of(boot, who) {
        Some(t) => t,
        None => TaskId::ZERO,
    }
}

/// Why a call is refused, if it is.
#[tactic(auto, unfolding(kernel_model::specs::Answers::refusal))]
pub fn refusal(
    alloc: Global,
    boot: &Boot,
    entries: &[Entry],
    who: ThreadId,
    call: &Call,
) -> Result<Option<Refusal>, NoMemory>
    ensures { IfOk result (λ why. why ≡ spec.refusal boot.now (reverse entries.now) who call.now) }
{
    let t = caller(boot, who);
    if is_dead(boot, entries, task_of(boot, who)) || is_dead(boot, entries, named_task(call)) {
        return Ok(Some(Refusal::Dead));
    }
    if is_stranger(boot, t, call) {
        return Ok(Some(Refusal::NotMine));
    }
    if no_object(boot, entries, t, call) {
        return Ok(Some(Refusal::NoObject));
    }
    if already(boot, entries, t, call) {
        return Ok(Some(Refusal::Already));
    }
    if invalid(call) {
        return Ok(Some(Refusal::Invalid));
    }
    if out_of_range(boot, call) {
        return Ok(Some(Refusal::Range));
    }
    if emptied(entries, call) {
        return Ok(Some(Refusal::Emptied));
    }
    Ok(shortage(alloc, boot, entries, call)?)
}

fn read(boot: &Boot, entries: &[Entry], o: ObjId, off: u32, len: u32) -> Reply
    requires { spec.bad_range boot.now o off len ≡ false }
    ensures { result ≡ Reply.Bytes (map (contents.byte (reverse entries.now) o) (range_with_len off len)) }
{
    if bad_range(boot, o, off, len) || 256 < pages_in(boot, o) {
        unreachable!();
    }
    Reply::Bytes(bytes(entries, o, off, len))
}

fn was_active(boot: &Boot, entries: &[Entry], t: TaskId) -> Reply
    ensures { result ≡ Reply.Was (bands.active boot.now (reverse entries.now) t) }
{
    Reply::Was(task_pass(boot, entries, t).active)
}

fn ledger(alloc: Global, boot: &Boot, entries: &[Entry], t: TaskId) -> Result<Reply, NoMemory>
    ensures { IfOk result (λ reply. reply ≡ Reply.Pages (counted.counts boot.now (reverse entries.now) t)) }
{
    let rows = all_rows(alloc, boot, entries)?;
    let counts = counts(boot, entries, &rows, t)?;
    Ok(Reply::Pages(counts))
}

fn purged(o: Option<ObjId>) -> Reply
    ensures { result ≡ option_map_or Reply.Purged o Reply.Nothing }
{
    match o {
        Some(o) => Reply::Purged(o),
        None => Reply::Nothing,
    }
}

fn purge_one(alloc: Global, boot: &Boot, entries: &[Entry]) -> Result<Reply, NoMemory>
    ensures { IfOk result (λ reply. reply ≡ option_map_or Reply.Purged (choice.pick boot.now (reverse entries.now)) Reply.Nothing) }
{
    let rows = all_rows(alloc, boot, entries)?;
    let o = pick(alloc, boot, entries, &rows)?;
    Ok(purged(o))
}

fn purge_forced(alloc: Global, boot: &Boot, entries: &[Entry]) -> Result<Reply, NoMemory>
    ensures { IfOk result (λ reply. reply ≡ option_map_or Reply.Purged (choice.forced boot.now (reverse entries.now)) Reply.Nothing) }
{
    let rows = object_rows(alloc, boot, entries)?;
    Ok(purged(forced(boot, entries, &rows)))
}

/// What an accepted call gets.
fn accepted_answer(
    alloc: Global,
    boot: &Boot,
    entries: &[Entry],
    t: TaskId,
    call: &Call,
) -> Result<Reply, NoMemory>
    requires { spec.out_of_range boot.now call.now ≡ false }
    ensures { IfOk result (λ reply. reply ≡ spec.accepted_answer boot.now (reverse entries.now) t call.now) }
{
    match call {
        Call::Map { .. } => Ok(Reply::Mapped),
        Call::Attach { .. } => Ok(Reply::Attached),
        Call::Unmap { .. } => Ok(Reply::Unmapped),
        Call::Write { .. } => Ok(Reply::Wrote),
        Call::Read { obj, off, len } => Ok(read(boot, entries, *obj, *off, *len)),
        Call::SetState { obj, .. } => Ok(Reply::Old(state(entries, *obj))),
        Call::GetState { obj } => Ok(Reply::Is(state(entries, *obj))),
        Call::Active { .. } => Ok(was_active(boot, entries, t)),
        Call::Exit => Ok(Reply::Exited),
        Call::SetBand { .. } => Ok(Reply::Banded),
        Call::SetLimits { .. } => Ok(Reply::Limited),
        Call::Ledger => Ok(ledger(alloc, boot, entries, t)?),
        Call::PurgeOne => Ok(purge_one(alloc, boot, entries)?),
        Call::Forced => Ok(purge_forced(alloc, boot, entries)?),
        Call::Scan => Ok(scan(alloc, boot, entries)?),
        Call::Tick => Ok(tick(alloc, boot, entries)?),
        Call::Jetsam => Ok(victim(alloc, boot, entries)?),
        Call::Info => Ok(frames(alloc, boot, entries)?),
        Call::Purgeables => Ok(tokens(alloc, boot, entries)?),
    }
}

/// The answer to a call, over these entries.
#[tactic(auto, unfolding(kernel_model::specs::Answers::answer))]
pub fn answer(
    alloc: Global,
    boot: &Boot,
    entries: &[Entry],
    who: ThreadId,
    call: &Call,
) -> Result<Reply, NoMemory>
    ensures { IfOk result (λ reply. reply ≡ spec.answer boot.now (reverse entries.now) who call.now) }
{
    let refused = refusal(alloc, boot, entries, who, call)?;
    match refused {
        Some(why) => Ok(Reply::Refused(why)),
        None => Ok(accepted_answer(alloc, boot, entries, caller(boot, who), call)?),
    }
}
