//! The deadlines of the three queues.

ghost use Rattle.std.specs.Prelude.{◌≡◌, ◌<◌, ◌≤◌, ◌+◌, ◌-◌, ◌++◌, ◌∷◌, [], reverse, drop, length, fold, filter, count_by, find, insert, nat_le, nat_lt, IfOk, OnOk, if◌then◌else◌, None};
ghost use Rattle.std.specs.Option.{option_map_or};
ghost use Rattle.std.specs.List.{position, position_or_len, range_with_len};
ghost use Rattle.kernel_model.specs.Deadlines as spec;
ghost use Rattle.kernel_model.specs.Lists as lists_of;
ghost use Rattle.kernel_model.specs.Events as events;
ghost use Rattle.kernel_model.specs.State as states;
ghost use Rattle.kernel_model.specs.Groups as group_spec;
ghost use Rattle.slow_kernel.specs.Tables as tables;
ghost use Rattle.slow_kernel.specs.DeadlineSteps as steps;

use crate::groups::{is_volatile, object_id, same_queue, standing};
use crate::mapping::is_unmapped_at;
use crate::pages::{all_rows, entered, left};
use crate::states::state;
use kern_ids::calls::{Call, Queue, State, Wish, decode_word};
use kern_ids::entries::{Entry, NoMemory};
use kern_ids::ids::ObjId;
use kern_ids::replies::Reply;
use kernel_model::boot::Boot;
use kernel_model::events::accepted;
use std::alloc::Global;
use std::marker::Model;

/// The lists of deadlines, one for each queue.
#[derive(Drop)]
pub struct DeadlineLists {
    obsolete: Vec<usize>,
    lifo: Vec<usize>,
    fifo: Vec<usize>,
}

impl Model for DeadlineLists {
    ghost use Rattle.kernel_model.specs.Deadlines.{Deadlines};

    ghost Value = { Deadlines };

    ghost view = { λ d. record { obsolete = d.obsolete.items; lifo = d.lifo.items; fifo = d.fifo.items } };
}

#[tactic(auto, using(std::proofs::lemmas::List::nil_from_length))]
fn drop_first(list: &mut Vec<usize>)
    ensures { list.new.items ≡ drop 1 list.old.items }
{
    if !list.is_empty() {
        let _first = list.remove(0);
    }
}

#[tactic(auto, using(crate::proofs::DeadlineLists::but_last_take))]
fn drop_last(list: &mut Vec<usize>)
    ensures { list.new.items ≡ lists_of.but_last list.old.items }
{
    let _last = list.pop();
}

fn append(list: &mut Vec<usize>, deadline: usize) -> Result<(), NoMemory>
    ensures { OnOk result (list.new.items ≡ list.old.items ++ deadline ∷ []) }
{
    list.reserve(1).map_err(|_| NoMemory)?;
    list.push_reserved(deadline);
    Ok(())
}

fn first_greater(list: &[usize], deadline: usize) -> Option<usize>
    ensures { result ≡ position (λ d. nat_lt deadline d) list.now }
{
    list.iter().position(|d| deadline < *d)
}

/// Where a deadline goes: after all that aren't greater.
fn place_for(list: &[usize], deadline: usize) -> usize
    ensures place { result ≡ position_or_len (λ d. nat_lt deadline d) list.now }
    ensures bound { result ≤ length list.now }
{
    match first_greater(list, deadline) {
        Some(i) => i,
        None => list.len(),
    }
}

fn insert_at(list: &mut Vec<usize>, at: usize, deadline: usize) -> Result<(), NoMemory>
    requires { at ≤ length list.old.items }
    ensures { OnOk result (list.new.items ≡ insert list.old.items at deadline) }
{
    list.insert(at, deadline).map_err(|_| NoMemory)?;
    Ok(())
}

fn put(list: &mut Vec<usize>, deadline: usize) -> Result<(), NoMemory>
    ensures { OnOk result (list.new.items ≡ spec.put_deadline deadline list.old.items) }
{
    let at = place_for(list, deadline);
    insert_at(list, at, deadline)
}

/// Without the first of the list, and with a deadline of another list, if it had one.
fn take_over(list: &mut Vec<usize>, deadline: Option<usize>) -> Result<(), NoMemory>
    ensures { OnOk result (list.new.items ≡ steps.put_some deadline (drop 1 list.old.items)) }
{
    drop_first(list);
    match deadline {
        Some(deadline) => put(list, deadline),
        None => Ok(()),
    }
}

impl DeadlineLists {
    fn new(alloc: Global) -> DeadlineLists
        ensures { result ≡ record { obsolete = []; lifo = []; fifo = [] } }
    {
        DeadlineLists {
            obsolete: Vec::new(alloc),
            lifo: Vec::new(alloc),
            fifo: Vec::new(alloc),
        }
    }

    /// The deadlines of a queue.
    pub fn of(&self, queue: Queue) -> &[usize]
        ensures { result.now ≡ spec.of_queue self.now queue }
    {
        match queue {
            Queue::Obsolete => self.obsolete.as_slice(),
            Queue::Lifo => self.lifo.as_slice(),
            Queue::Fifo => self.fifo.as_slice(),
        }
    }

    fn without_first(&mut self, queue: Queue)
        ensures { self.new ≡ spec.without_first queue self.old }
    {
        match queue {
            Queue::Obsolete => drop_first(&mut self.obsolete),
            Queue::Lifo => drop_first(&mut self.lifo),
            Queue::Fifo => drop_first(&mut self.fifo),
        }
    }

    fn without_last(&mut self, queue: Queue)
        ensures { self.new ≡ spec.without_last queue self.old }
    {
        match queue {
            Queue::Obsolete => drop_last(&mut self.obsolete),
            Queue::Lifo => drop_last(&mut self.lifo),
            Queue::Fifo => drop_last(&mut self.fifo),
        }
    }

    fn add(&mut self, queue: Queue, deadline: usize) -> Result<(), NoMemory>
        ensures { OnOk result (self.new ≡ spec.with_queue self.old queue (spec.of_queue self.old queue ++ deadline ∷ [])) }
    {
        match queue {
            Queue::Obsolete => append(&mut self.obsolete, deadline),
            Queue::Lifo => append(&mut self.lifo, deadline),
            Queue::Fifo => append(&mut self.fifo, deadline),
        }
    }

    fn take_over(&mut self, queue: Queue, deadline: Option<usize>) -> Result<(), NoMemory>
        ensures { OnOk result (self.new ≡ spec.with_queue self.old queue (steps.put_some deadline (drop 1 (spec.of_queue self.old queue)))) }
    {
        match queue {
            Queue::Obsolete => take_over(&mut self.obsolete, deadline),
            Queue::Lifo => take_over(&mut self.lifo, deadline),
            Queue::Fifo => take_over(&mut self.fifo, deadline),
        }
    }
}

/// The list begins with a deadline of at most n.
fn begins_ripe(n: usize, list: &[usize]) -> bool
    ensures { result ≡ spec.begins_ripe n list.now }
{
    match list {
        [first, ..] => *first <= n,
        [] => false,
    }
}

/// The first queue that begins with a ripe deadline.
pub fn ripe_of(n: usize, lists: &DeadlineLists) -> Option<Queue>
    ensures { result ≡ spec.ripe_of n lists.now }
{
    if begins_ripe(n, lists.of(Queue::Obsolete)) {
        Some(Queue::Obsolete)
    } else if begins_ripe(n, lists.of(Queue::Lifo)) {
        Some(Queue::Lifo)
    } else if begins_ripe(n, lists.of(Queue::Fifo)) {
        Some(Queue::Fifo)
    } else {
        None
    }
}

fn first_of(list: &[usize]) -> Option<usize>
    ensures { result ≡ steps.first_of list.now }
{
    match list {
        [first, ..] => Some(*first),
        [] => None,
    }
}

/// A purge out of one queue for the ripe one.
#[tactic(auto, using(crate::proofs::DeadlineLists::after_ripe_moved))]
fn after_ripe(
    n: usize,
    ripe: Queue,
    queue: Queue,
    lists: &mut DeadlineLists,
) -> Result<(), NoMemory>
    ensures { OnOk result (lists.new ≡ spec.after_ripe n ripe queue lists.old) }
{
    if same_queue(queue, ripe) {
        lists.without_first(ripe);
        return Ok(());
    }
    if begins_ripe(n, lists.of(queue)) {
        lists.without_first(queue);
        return Ok(());
    }
    let first = first_of(lists.of(queue));
    lists.without_first(queue);
    lists.take_over(ripe, first)
}

/// A new deadline.
fn new_deadline(before: &[Entry], queue: Queue) -> usize
    ensures { result ≡ spec.new_deadline (reverse before.now) queue }
{
    match queue {
        Queue::Obsolete => 0,
        Queue::Lifo | Queue::Fifo => entered(before),
    }
}

/// A SetState of a VOLATILE object.
fn after_set_volatile(
    boot: &Boot,
    before: &[Entry],
    o: ObjId,
    wish: Wish,
    lists: &mut DeadlineLists,
) -> Result<(), NoMemory>
    ensures { OnOk result (lists.new ≡ spec.after_set boot.now (reverse before.now) o State.Volatile wish lists.old) }
{
    let old = standing(before, o).queue;
    match wish {
        Wish::Nonvolatile => {
            lists.without_last(old);
            Ok(())
        }
        Wish::Empty => {
            lists.without_first(old);
            Ok(())
        }
        Wish::Volatile { queue, .. } => {
            if same_queue(old, queue) {
                return Ok(());
            }
            lists.without_last(old);
            lists.add(queue, new_deadline(before, queue))
        }
    }
}

/// An accepted SetState.
fn after_set(
    boot: &Boot,
    before: &[Entry],
    o: ObjId,
    wish: Wish,
    lists: &mut DeadlineLists,
) -> Result<(), NoMemory>
    ensures { OnOk result (lists.new ≡ spec.after_set boot.now (reverse before.now) o (states.state (reverse before.now) o) wish lists.old) }
{
    match state(before, o) {
        State::Nonvolatile => match wish {
            Wish::Volatile { queue, .. } => lists.add(queue, new_deadline(before, queue)),
            _ => Ok(()),
        },
        State::Volatile => after_set_volatile(boot, before, o, wish, lists),
        State::Empty => Ok(()),
    }
}

/// A purge by a ripe token.
fn after_ripe_purge(
    alloc: Global,
    boot: &Boot,
    before: &[Entry],
    o: ObjId,
    lists: &mut DeadlineLists,
) -> Result<(), NoMemory>
    ensures { OnOk result (lists.new ≡ spec.after_purge boot.now (reverse before.now) Call.PurgeOne o lists.old) }
{
    let rows = all_rows(alloc, boot, before)?;
    let n = left(boot, before, &rows);
    match ripe_of(n, lists) {
        Some(ripe) => after_ripe(n, ripe, standing(before, o).queue, lists),
        None => Ok(()),
    }
}

/// A purge.
fn after_purge(
    alloc: Global,
    boot: &Boot,
    before: &[Entry],
    call: &Call,
    o: ObjId,
    lists: &mut DeadlineLists,
) -> Result<(), NoMemory>
    ensures { OnOk result (lists.new ≡ spec.after_purge boot.now (reverse before.now) call.now o lists.old) }
{
    match call {
        Call::Forced => {
            lists.without_first(standing(before, o).queue);
            Ok(())
        }
        Call::PurgeOne => after_ripe_purge(alloc, boot, before, o, lists),
        Call::Scan => after_ripe_purge(alloc, boot, before, o, lists),
        _ => Ok(()),
    }
}

/// The first of its queue goes with a volatile object that entry i unmaps.
#[tactic(auto, unfolding(crate::specs::DeadlineSteps::after_one))]
fn after_unmapping(boot: &Boot, entries: &[Entry], i: usize, o: ObjId, lists: &mut DeadlineLists)
    requires { i < length entries.now }
    ensures { lists.new ≡ steps.after_one boot.now entries.now i o lists.old }
{
    if is_unmapped_at(boot, entries, i, o) && is_volatile(boot, &entries[..i], o) {
        lists.without_first(standing(&entries[..i], o).queue);
    }
}

/// The unmappings of entry i.
#[tactic(auto, using(crate::proofs::DeadlineLists::after_to_none, crate::proofs::DeadlineLists::after_to_more))]
fn after_unmappings(boot: &Boot, entries: &[Entry], i: usize, lists: &mut DeadlineLists)
    requires { i < length entries.now }
    ensures { lists.new ≡ steps.after_to boot.now entries.now i (length boot.now.objects) lists.old }
{
    let n = boot.objects().len();
    for k in 0..n {
        after_unmapping(boot, entries, i, object_id(k), lists);
    }
}

/// What an accepted SetState asks of which object.
fn set_by(e: &Entry) -> Option<(ObjId, Wish)>
    ensures { result ≡ (if events.accepted e.now then spec.set_by e.now.call else None) }
{
    match e.call {
        Call::SetState { obj, word } => {
            if !accepted(e) {
                return None;
            }
            match decode_word(word) {
                Some(wish) => Some((obj, wish)),
                None => None,
            }
        }
        _ => None,
    }
}

fn purged_by(reply: &Reply) -> Option<ObjId>
    ensures { result ≡ events.purged_by reply.now }
{
    match reply {
        Reply::Purged(o) => Some(*o),
        _ => None,
    }
}

/// Brings the lists from before entry i to after it.
fn advance(
    alloc: Global,
    boot: &Boot,
    entries: &[Entry],
    i: usize,
    lists: &mut DeadlineLists,
) -> Result<(), NoMemory>
    requires at { i < length entries.now }
    requires before { lists.old ≡ spec.deadlines boot.now (tables.past_at entries.now i) }
    ensures { OnOk result (lists.new ≡ spec.deadlines boot.now (tables.past_at entries.now (i + 1))) }
{
    let e = &entries[i];
    let before = &entries[..i];
    match set_by(e) {
        Some(set) => after_set(boot, before, set.0, set.1, lists),
        None => match purged_by(&e.reply) {
            Some(o) => after_purge(alloc, boot, before, &e.call, o, lists),
            None => {
                after_unmappings(boot, entries, i, lists);
                Ok(())
            }
        },
    }
}

/// The deadlines after these entries.
#[tactic(auto, using(crate::proofs::DeadlineLists::deadlines_none))]
pub fn deadlines(alloc: Global, boot: &Boot, entries: &[Entry]) -> Result<DeadlineLists, NoMemory>
    ensures { IfOk result (λ lists. lists ≡ spec.deadlines boot.now (reverse entries.now)) }
{
    let mut lists = DeadlineLists::new(alloc);
    for i in 0..entries.len() {
        advance(alloc, boot, entries, i, &mut lists)?;
    }
    Ok(lists)
}
