//! The groups of volatile objects, and which object is purged.

ghost use Rattle.std.specs.Prelude.{◌≡◌, ◌<◌, ◌≤◌, ◌+◌, ◌&&◌, ◌++◌, reverse, not, length, map, option_map, find, IfOk};
ghost use Rattle.std.specs.List.{list_any};
ghost use Rattle.kernel_model.specs.Groups as spec;
ghost use Rattle.kernel_model.specs.Choice as choice;
ghost use Rattle.slow_kernel.specs.Tables as tables;
ghost use Rattle.slow_kernel.specs.ObjectTables as objects;

use crate::mapping::mapped;
use crate::states::state;
use kern_ids::calls::{Queue, State, Wish};
use kern_ids::entries::{Entry, NoMemory};
use kern_ids::ids::ObjId;
use kernel_model::boot::Boot;
use kernel_model::events::asked;
use kernel_model::place::Standing;
use std::alloc::Global;

/// The object of a number.
pub fn object_id(n: usize) -> ObjId
    requires { n < 256 }
    ensures { result ≡ n }
{
    match ObjId::new(n as u32) {
        Some(o) => o,
        None => unreachable!(),
    }
}

/// Where o is after one entry more, which has number n.
#[tactic(auto, unfolding(kernel_model::specs::Groups::next_standing))]
fn next_standing(o: ObjId, n: usize, was: Standing, e: &Entry) -> Standing
    ensures { result ≡ spec.next_standing o n was e.now }
{
    match asked(o, e) {
        Some(Wish::Volatile { queue, group }) => Standing {
            queue,
            group,
            vstamp: n,
        },
        _ => was,
    }
}

/// Where o is after these entries.
#[tactic(auto, using(crate::proofs::ObjectTables::standing_loop, crate::proofs::ObjectTables::standing_none))]
pub fn standing(entries: &[Entry], o: ObjId) -> Standing
    ensures { result ≡ spec.standing (reverse entries.now) o }
{
    let mut standing = Standing {
        queue: Queue::Obsolete,
        group: 0,
        vstamp: 0,
    };
    for (i, e) in entries.iter().enumerate() {
        standing = next_standing(o, i, standing, e);
    }
    standing
}

/// The object is mapped and VOLATILE.
#[tactic(auto, unfolding(kernel_model::specs::Groups::volatile))]
pub fn is_volatile(boot: &Boot, entries: &[Entry], o: ObjId) -> bool
    ensures { result ≡ spec.volatile boot.now (reverse entries.now) o }
{
    mapped(boot, entries, o) && matches!(state(entries, o), State::Volatile)
}

/// What is known of an object.
#[derive(Clone, Copy)]
pub struct ObjectRow {
    pub object: ObjId,
    pub volatile: bool,
    pub standing: Standing,
}

fn object_row(boot: &Boot, entries: &[Entry], o: ObjId) -> ObjectRow
    ensures { result ≡ objects.object_row boot.now (reverse entries.now) o }
{
    ObjectRow {
        object: o,
        volatile: is_volatile(boot, entries, o),
        standing: standing(entries, o),
    }
}

/// What is known of all objects after these entries.
#[tactic(auto, using(crate::proofs::Tables::table_more))]
pub fn object_rows(
    alloc: Global,
    boot: &Boot,
    entries: &[Entry],
) -> Result<Vec<ObjectRow>, NoMemory>
    ensures { IfOk result (λ rows. rows.items ≡ objects.object_rows boot.now (reverse entries.now)) }
{
    let mut rows = Vec::new(alloc);
    let n = boot.objects().len();
    for k in 0..n {
        rows.reserve(1).map_err(|_| NoMemory)?;
        rows.push_reserved(object_row(boot, entries, object_id(k)));
    }
    Ok(rows)
}

/// The two are one queue.
pub fn same_queue(a: Queue, b: Queue) -> bool
    ensures { result ≡ spec.same_queue a b }
{
    match a {
        Queue::Obsolete => matches!(b, Queue::Obsolete),
        Queue::Lifo => matches!(b, Queue::Lifo),
        Queue::Fifo => matches!(b, Queue::Fifo),
    }
}

fn stands_in(queue: Queue, group: u32, row: &ObjectRow) -> bool
    ensures { result ≡ objects.row_stands_in queue group row.now }
{
    row.volatile && same_queue(row.standing.queue, queue) && row.standing.group == group
}

/// Row a is purged before row b.
fn is_before(queue: Queue, a: &ObjectRow, b: &ObjectRow) -> bool
    ensures { result ≡ objects.row_before queue a.now b.now }
{
    match queue {
        Queue::Lifo => b.standing.vstamp < a.standing.vstamp,
        _ => a.standing.vstamp < b.standing.vstamp,
    }
}

fn has_before(rows: &[ObjectRow], queue: Queue, group: u32, row: &ObjectRow) -> bool
    ensures { result ≡ list_any (λ other. objects.row_stands_in queue group other && objects.row_before queue other row.now) rows.now }
{
    rows.iter().any(|other| stands_in(queue, group, other) && is_before(queue, other, row))
}

#[tactic(auto, unfolding(crate::specs::ObjectTables::row_first))]
fn is_first(rows: &[ObjectRow], queue: Queue, group: u32, row: &ObjectRow) -> bool
    ensures { result ≡ objects.row_first rows.now queue group row.now }
{
    stands_in(queue, group, row) && !has_before(rows, queue, group, row)
}

fn first_in(rows: &[ObjectRow], queue: Queue, group: u32) -> Option<ObjId>
    ensures { result ≡ option_map (λ row. row.object) (find (objects.row_first rows.now queue group) rows.now) }
{
    match rows.iter().find(|row| is_first(rows, queue, group, row)) {
        Some(row) => Some(row.object),
        None => None,
    }
}

/// The first object of a group.
#[tactic(auto, using(crate::proofs::ObjectTables::first_rows))]
pub fn first(
    boot: &Boot,
    entries: &[Entry],
    rows: &[ObjectRow],
    queue: Queue,
    group: u32,
) -> Option<ObjId>
    requires { rows.now ≡ objects.object_rows boot.now (reverse entries.now) }
    ensures { result ≡ spec.first boot.now (reverse entries.now) queue group }
{
    first_in(rows, queue, group)
}

/// What was found, or else the first object of a group.
fn or_first(
    found: Option<ObjId>,
    boot: &Boot,
    entries: &[Entry],
    rows: &[ObjectRow],
    queue: Queue,
    group: u32,
) -> Option<ObjId>
    requires { rows.now ≡ objects.object_rows boot.now (reverse entries.now) }
    ensures { result ≡ objects.or_else found (spec.first boot.now (reverse entries.now) queue group) }
{
    match found {
        Some(o) => Some(o),
        None => first(boot, entries, rows, queue, group),
    }
}

/// The first object of a queue's own group or else of the other aged queue's, from group 0 upward.
#[tactic(auto, using(crate::proofs::ObjectTables::aged_more, crate::proofs::ObjectTables::aged_none))]
pub fn first_aged(
    boot: &Boot,
    entries: &[Entry],
    rows: &[ObjectRow],
    own: Queue,
    other: Queue,
) -> Option<ObjId>
    requires { rows.now ≡ objects.object_rows boot.now (reverse entries.now) }
    ensures { result ≡ objects.aged_to boot.now (reverse entries.now) own other 8 }
{
    let mut found = None;
    for g in 0..8 {
        found = or_first(found, boot, entries, rows, own, g);
        found = or_first(found, boot, entries, rows, other, g);
    }
    found
}

/// The first object of a queue, from group 0 upward.
#[tactic(auto, using(crate::proofs::ObjectTables::queued_more, crate::proofs::ObjectTables::queued_none))]
pub fn first_queued(
    boot: &Boot,
    entries: &[Entry],
    rows: &[ObjectRow],
    queue: Queue,
) -> Option<ObjId>
    requires { rows.now ≡ objects.object_rows boot.now (reverse entries.now) }
    ensures { result ≡ objects.queued_to boot.now (reverse entries.now) queue 8 }
{
    let mut found = None;
    for g in 0..8 {
        found = or_first(found, boot, entries, rows, queue, g);
    }
    found
}

/// The object of a forced purge.
#[tactic(auto, using(crate::proofs::ObjectTables::forced_rows))]
pub fn forced(boot: &Boot, entries: &[Entry], rows: &[ObjectRow]) -> Option<ObjId>
    requires { rows.now ≡ objects.object_rows boot.now (reverse entries.now) }
    ensures { result ≡ choice.forced boot.now (reverse entries.now) }
{
    if let Some(o) = first_queued(boot, entries, rows, Queue::Fifo) {
        return Some(o);
    }
    if let Some(o) = first_queued(boot, entries, rows, Queue::Lifo) {
        return Some(o);
    }
    first_queued(boot, entries, rows, Queue::Obsolete)
}

/// The object of a ripe purge, where this queue is ripe.
#[tactic(auto, using(crate::proofs::ObjectTables::ripe_lifo, crate::proofs::ObjectTables::ripe_fifo, crate::proofs::ObjectTables::ripe_obsolete))]
pub fn first_ripe(boot: &Boot, entries: &[Entry], rows: &[ObjectRow], ripe: Queue) -> Option<ObjId>
    requires { rows.now ≡ objects.object_rows boot.now (reverse entries.now) }
    ensures { result ≡ objects.ripe_first boot.now (reverse entries.now) ripe }
{
    match ripe {
        Queue::Obsolete => first(boot, entries, rows, Queue::Obsolete, 0),
        Queue::Lifo => first_aged(boot, entries, rows, Queue::Lifo, Queue::Fifo),
        Queue::Fifo => first_aged(boot, entries, rows, Queue::Fifo, Queue::Lifo),
    }
}
