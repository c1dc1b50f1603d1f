//! What the scan, the purges and the two counts answer.

ghost use Rattle.std.specs.Prelude.{◌≡◌, ◌<◌, ◌≤◌, ◌+◌, ◌-◌, ◌&&◌, not, reverse, length, map, option_map, option_copied, find, nat_le, nat_lt, count_by, IfOk};
ghost use Rattle.std.specs.List.{list_any};
ghost use Rattle.std.specs.Option.{option_map_or};
ghost use Rattle.kernel_model.specs.Answers as answers;
ghost use Rattle.kernel_model.specs.Choice as choice;
ghost use Rattle.kernel_model.specs.Pages as page_spec;
ghost use Rattle.kernel_model.specs.Scan as spec;
ghost use Rattle.slow_kernel.specs.Tables as tables;
ghost use Rattle.slow_kernel.specs.ScanTables as scans;

use crate::deadlines::{deadlines, ripe_of};
use crate::groups::{first_ripe, object_rows};
use crate::pages::{
    PageRow, active_pages, all_rows, entered, free, inactive_pages, is_active, is_inactive, left,
    small, stored_pages,
};
use kern_ids::calls::Queue;
use kern_ids::entries::{Entry, NoMemory};
use kern_ids::ids::{ObjId, PageId};
use kern_ids::replies::{FrameCounts, Move, QueueCounts, Reply, TokenCounts};
use kernel_model::boot::Boot;
use std::alloc::Global;

/// The page is Active, or else Inactive, as is asked.
fn is_there(active: bool, row: &PageRow) -> bool
    ensures { result ≡ scans.row_there active row.now }
{
    if active {
        is_active(row)
    } else {
        is_inactive(row)
    }
}

/// Row a has the lower stamp.
fn is_older(a: &PageRow, b: &PageRow) -> bool
    ensures { result ≡ scans.row_older a.now b.now }
{
    a.facts.placed.number < b.facts.placed.number
        || (a.facts.placed.number == b.facts.placed.number && a.page.page < b.page.page)
}

fn has_older(rows: &[PageRow], active: bool, row: &PageRow) -> bool
    ensures { result ≡ list_any (λ other. scans.row_there active other && scans.row_older other row.now) rows.now }
{
    rows.iter()
        .any(|other| is_there(active, other) && is_older(other, row))
}

#[tactic(auto, unfolding(crate::specs::ScanTables::row_oldest))]
fn is_oldest(rows: &[PageRow], active: bool, row: &PageRow) -> bool
    ensures { result ≡ scans.row_oldest rows.now active row.now }
{
    is_there(active, row) && !has_older(rows, active, row)
}

fn oldest_in(rows: &[PageRow], active: bool) -> Option<&PageRow>
    ensures { option_copied result ≡ find (scans.row_oldest rows.now active) rows.now }
{
    rows.iter().find(|row| is_oldest(rows, active, row))
}

/// The Active page of least stamp.
fn first_active(boot: &Boot, entries: &[Entry], rows: &[PageRow]) -> Option<PageId>
    requires { rows.now ≡ tables.all_rows boot.now (reverse entries.now) }
    ensures { result ≡ spec.first_active boot.now (reverse entries.now) }
{
    match oldest_in(rows, true) {
        Some(row) => Some(row.page),
        None => None,
    }
}

/// The compressor has room.
fn has_room(boot: &Boot, entries: &[Entry], rows: &[PageRow]) -> bool
    requires { rows.now ≡ tables.all_rows boot.now (reverse entries.now) }
    ensures { result ≡ nat_lt (page_spec.stored_pages boot.now (reverse entries.now)) boot.now.params.store }
{
    stored_pages(boot, entries, rows) < boot.params().store as usize
}

/// What is done with the Inactive page of least stamp, if there is one.
fn scan_inactive(boot: &Boot, entries: &[Entry], rows: &[PageRow]) -> Reply
    requires { rows.now ≡ tables.all_rows boot.now (reverse entries.now) }
    ensures { result ≡ scans.inactive_reply boot.now (reverse entries.now) }
{
    match oldest_in(rows, false) {
        Some(row) => moved(row, has_room(boot, entries, rows)),
        None => Reply::Idle,
    }
}

/// The move of a page, where the compressor has room or not.
fn moved(row: &PageRow, room: bool) -> Reply
    ensures { result ≡ scans.row_moved row.now room }
{
    if row.facts.touched {
        Reply::Moved(Move::Reactivated, row.page)
    } else if !row.facts.written {
        Reply::Moved(Move::Freed, row.page)
    } else if room {
        Reply::Moved(Move::Compressed, row.page)
    } else {
        Reply::Moved(Move::Requeued, row.page)
    }
}

/// The object of a ripe purge.
#[tactic(auto, using(crate::proofs::ObjectTables::pick_from))]
pub fn pick(
    alloc: Global,
    boot: &Boot,
    entries: &[Entry],
    rows: &[PageRow],
) -> Result<Option<ObjId>, NoMemory>
    requires { rows.now ≡ tables.all_rows boot.now (reverse entries.now) }
    ensures { IfOk result (λ o. o ≡ choice.pick boot.now (reverse entries.now)) }
{
    let lists = deadlines(alloc, boot, entries)?;
    match ripe_of(left(boot, entries, rows), &lists) {
        Some(ripe) => {
            let objects = object_rows(alloc, boot, entries)?;
            Ok(first_ripe(boot, entries, &objects, ripe))
        }
        None => Ok(None),
    }
}

fn scan_rest(
    alloc: Global,
    boot: &Boot,
    entries: &[Entry],
    rows: &[PageRow],
) -> Result<Reply, NoMemory>
    requires { rows.now ≡ tables.all_rows boot.now (reverse entries.now) }
    ensures { IfOk result (λ reply. reply ≡ scans.rest_reply boot.now (reverse entries.now)) }
{
    match pick(alloc, boot, entries, rows)? {
        Some(o) => Ok(Reply::Purged(o)),
        None => Ok(scan_inactive(boot, entries, rows)),
    }
}

/// So many frames are free that the scan does nothing.
fn has_enough(boot: &Boot, entries: &[Entry], rows: &[PageRow]) -> bool
    requires { rows.now ≡ tables.all_rows boot.now (reverse entries.now) }
    ensures { result ≡ nat_le boot.now.params.target (page_spec.free boot.now (reverse entries.now)) }
{
    boot.params().target <= free(boot, entries, rows)
}

/// Fewer pages are Inactive than shall be.
fn is_short(boot: &Boot, entries: &[Entry], rows: &[PageRow]) -> bool
    requires { rows.now ≡ tables.all_rows boot.now (reverse entries.now) }
    ensures { result ≡ nat_lt (page_spec.inactive_pages boot.now (reverse entries.now)) boot.now.params.inactive }
{
    inactive_pages(boot, entries, rows) < boot.params().inactive as usize
}

/// The page that is deactivated.
fn to_deactivate(boot: &Boot, entries: &[Entry], rows: &[PageRow]) -> Option<PageId>
    requires { rows.now ≡ tables.all_rows boot.now (reverse entries.now) }
    ensures { result ≡ scans.deactivated boot.now (reverse entries.now) }
{
    if is_short(boot, entries, rows) {
        first_active(boot, entries, rows)
    } else {
        None
    }
}

/// What Scan answers where too few frames are free.
fn scan_short(
    alloc: Global,
    boot: &Boot,
    entries: &[Entry],
    rows: &[PageRow],
) -> Result<Reply, NoMemory>
    requires { rows.now ≡ tables.all_rows boot.now (reverse entries.now) }
    ensures { IfOk result (λ reply. reply ≡ scans.short_reply boot.now (reverse entries.now)) }
{
    match to_deactivate(boot, entries, rows) {
        Some(p) => Ok(Reply::Moved(Move::Deactivated, p)),
        None => {
            let reply = scan_rest(alloc, boot, entries, rows)?;
            Ok(reply)
        }
    }
}

/// What Scan answers.
#[tactic(auto, using(crate::proofs::ScanTables::scan_from))]
pub fn scan(alloc: Global, boot: &Boot, entries: &[Entry]) -> Result<Reply, NoMemory>
    ensures { IfOk result (λ reply. reply ≡ spec.scan boot.now (reverse entries.now)) }
{
    let rows = all_rows(alloc, boot, entries)?;
    if has_enough(boot, entries, &rows) {
        return Ok(Reply::Enough);
    }
    let reply = scan_short(alloc, boot, entries, &rows)?;
    Ok(reply)
}

/// What Info answers.
pub fn frames(alloc: Global, boot: &Boot, entries: &[Entry]) -> Result<Reply, NoMemory>
    ensures { IfOk result (λ reply. reply ≡ answers.frames_reply boot.now (reverse entries.now)) }
{
    let rows = all_rows(alloc, boot, entries)?;
    let active = small(active_pages(boot, entries, &rows))?;
    let inactive = small(inactive_pages(boot, entries, &rows))?;
    let stored = small(stored_pages(boot, entries, &rows))?;
    Ok(Reply::Frames(FrameCounts {
        free: free(boot, entries, &rows),
        active,
        inactive,
        stored,
        entered: entered(entries) as u64,
        left: left(boot, entries, &rows) as u64,
    }))
}

fn unripe_in(n: usize, list: &[usize]) -> Option<&usize>
    ensures { option_copied result ≡ find (λ d. nat_lt n d) list.now }
{
    list.iter().find(|d| n < **d)
}

fn first_unripe(n: usize, list: &[usize]) -> Option<usize>
    ensures { result ≡ find (λ d. nat_lt n d) list.now }
{
    match unripe_in(n, list) {
        Some(d) => Some(*d),
        None => None,
    }
}

/// The due of the first deadline that isn't ripe, or 0.
fn next_due(n: usize, list: &[usize]) -> usize
    ensures { result ≡ option_map_or (λ d. d - n) (find (λ d. nat_lt n d) list.now) 0 }
{
    match first_unripe(n, list) {
        Some(d) => d.saturating_sub(n),
        None => 0,
    }
}

/// The last deadline, or 0.
fn last_of(list: &[usize]) -> usize
    ensures { result ≡ answers.last_or list.now 0 }
{
    let mut last = 0;
    for d in list {
        last = *d;
    }
    last
}

fn ripe_in(n: usize, list: &[usize]) -> usize
    ensures { result ≡ count_by (λ d. nat_le d n) list.now }
{
    list.iter().filter(|d| **d <= n).count()
}

fn queue_counts(n: usize, list: &[usize]) -> Result<QueueCounts, NoMemory>
    ensures { IfOk result (λ c. c ≡ answers.queue_counts n list.now) }
{
    let tokens = small(list.len())?;
    let ripe = small(ripe_in(n, list))?;
    Ok(QueueCounts {
        tokens,
        ripe,
        next: next_due(n, list) as u64,
        last: last_of(list).saturating_sub(n) as u64,
    })
}

/// What Purgeables answers.
pub fn tokens(alloc: Global, boot: &Boot, entries: &[Entry]) -> Result<Reply, NoMemory>
    ensures { IfOk result (λ reply. reply ≡ answers.tokens_reply boot.now (reverse entries.now)) }
{
    let rows = all_rows(alloc, boot, entries)?;
    let n = left(boot, entries, &rows);
    let lists = deadlines(alloc, boot, entries)?;
    let obsolete = queue_counts(n, lists.of(Queue::Obsolete))?;
    let lifo = queue_counts(n, lists.of(Queue::Lifo))?;
    let fifo = queue_counts(n, lists.of(Queue::Fifo))?;
    Ok(Reply::Tokens(TokenCounts {
        obsolete,
        lifo,
        fifo,
    }))
}
