//! The tokens and the groups as a kernel keeps them together.

ghost use Rattle.std.specs.Prelude.{◌≡◌, ◌<◌, length, Some};
ghost use Rattle.kern_ids.specs.declared.calls.Queue.TheVariants.{Obsolete};
ghost use Rattle.ripen_advance.specs.Queues.{dues_in};
ghost use Rattle.volatile_groups.specs.Grouped.{queue_of};
ghost use Rattle.purge_pick.specs.Picks.{HasTokens};

use kern_ids::calls::Queue;
use kern_ids::entries::NoMemory;
use kern_ids::ids::ObjId;
use kern_ids::replies::QueueCounts;
use purge_pick::{forced, pick};
use ripen_advance::TokenQueues;
use std::alloc::Global;
use volatile_groups::Groups;

/// One call of an example, and what it is to answer.
#[derive(Clone, Copy, Debug)]
pub enum Step {
    /// A page comes into the inactive queue.
    Deactivated,
    /// A page leaves the inactive queue.
    Freed,
    /// The object becomes VOLATILE in a queue and group.
    Volatile(u32, Queue, u32),
    /// The object returns to NONVOLATILE.
    Nonvolatile(u32),
    /// The object is emptied.
    Emptied(u32),
    /// The object of a ripe purge.
    Purge(Option<u32>),
    /// The object of a forced purge.
    Forced(Option<u32>),
    /// Of OBSOLETE, LIFO and FIFO the tokens, the ripe ones, the next due and the last.
    Tokens([u64; 12]),
}

/// As many tokens as objects in each queue, and the pages that are in the inactive queue.
#[derive(Drop)]
pub struct Parts {
    tokens: TokenQueues,
    groups: Groups,
    ahead: u32,
    ghost as_many: { HasTokens tokens groups },
    ghost ahead_is: { tokens.ahead ≡ ahead },
}

impl Parts {
    /// No token, no object and no page.
    pub fn new(alloc: Global) -> Result<Parts, NoMemory> {
        Ok(Parts {
            tokens: TokenQueues::new(alloc)?,
            groups: Groups::new(alloc)?,
            ahead: 0,
        })
    }

    /// Does a step; whether it answers what is wanted.
    fn does(&mut self, step: Step) -> bool {
        match step {
            Step::Deactivated => self.page_enters(),
            Step::Freed => self.page_leaves(),
            Step::Volatile(o, queue, group) => self.turn_volatile(o, queue, group),
            Step::Nonvolatile(o) => self.leave(o, false),
            Step::Emptied(o) => self.leave(o, true),
            Step::Purge(wanted) => self.purge().map(|o| o.get()) == wanted,
            Step::Forced(wanted) => self.purge_by_force().map(|o| o.get()) == wanted,
            Step::Tokens(wanted) => self.has_counts(wanted),
        }
    }

    /// Does steps until one doesn't answer what is wanted; the number of that one.
    pub fn first_wrong(&mut self, steps: &[Step]) -> Option<usize> {
        for (at, step) in steps.iter().enumerate() {
            if !self.does(*step) {
                return Some(at);
            }
        }
        None
    }

    fn page_enters(&mut self) -> bool {
        if self.ahead >= 1000 {
            return false;
        }
        self.tokens.entered(1);
        self.ahead += 1;
        true
    }

    fn page_leaves(&mut self) -> bool {
        if self.ahead == 0 {
            return false;
        }
        self.tokens.departed(1);
        self.ahead -= 1;
        true
    }

    fn turn_volatile(&mut self, o: u32, queue: Queue, group: u32) -> bool {
        let Some(obj) = ObjId::new(o) else {
            return false;
        };
        if group >= 8 || queue == Queue::Obsolete && group > 0 {
            return false;
        }
        match self.groups.queue_of(obj) {
            Some(old) if old == queue => self.enter_anew(obj, queue, group),
            Some(_) => self.leave(o, false) && self.enter(obj, queue, group),
            None => self.enter(obj, queue, group),
        }
    }

    /// An object that is in no list enters, with a new token.
    fn enter(&mut self, o: ObjId, queue: Queue, group: u32) -> bool
        requires group { group < 8 }
        requires obsolete { queue ≡ Obsolete → group ≡ 0 }
    {
        if self.groups.queue_of(o).is_some() || self.token_count(queue) >= 256 {
            return false;
        }
        self.groups.are_groups();
        self.tokens.add(queue);
        self.groups.enter(o, queue, group);
        true
    }

    /// An object of a queue enters it anew.
    fn enter_anew(&mut self, o: ObjId, queue: Queue, group: u32) -> bool
        requires group { group < 8 }
        requires obsolete { queue ≡ Obsolete → group ≡ 0 }
        requires stands { queue_of o self.old.groups ≡ Some queue }
    {
        self.groups.are_groups();
        let _queue = self.groups.remove(o);
        self.groups.are_groups();
        self.groups.enter(o, queue, group);
        true
    }

    /// An object leaves its queue, with the first token or the last.
    fn leave(&mut self, o: u32, is_first: bool) -> bool {
        let Some(obj) = ObjId::new(o) else {
            return false;
        };
        let Some(queue) = self.groups.queue_of(obj) else {
            return false;
        };
        if is_first {
            self.leave_first(obj, queue);
        } else {
            self.leave_last(obj, queue);
        }
        true
    }

    fn leave_first(&mut self, o: ObjId, queue: Queue)
        requires { queue_of o self.old.groups ≡ Some queue }
    {
        self.groups.are_groups();
        self.tokens.drop_first(queue);
        let _queue = self.groups.remove(o);
    }

    fn leave_last(&mut self, o: ObjId, queue: Queue)
        requires { queue_of o self.old.groups ≡ Some queue }
    {
        self.groups.are_groups();
        self.tokens.drop_last(queue);
        let _queue = self.groups.remove(o);
    }

    fn purge(&mut self) -> Option<ObjId> {
        let picked = pick(&self.tokens, &self.groups)?;
        self.groups.are_groups();
        self.tokens
            .take_ripe(picked.token_queue, picked.object_queue);
        let _queue = self.groups.remove(picked.obj);
        Some(picked.obj)
    }

    fn purge_by_force(&mut self) -> Option<ObjId> {
        let o = forced(&self.groups)?;
        let queue = self.groups.queue_of(o)?;
        self.leave_first(o, queue);
        Some(o)
    }

    /// The number of the tokens of a queue.
    fn token_count(&self, queue: Queue) -> u32
        ensures { result ≡ length (dues_in self.now.tokens queue) }
    {
        let counts = self.tokens.counts();
        match queue {
            Queue::Obsolete => counts.obsolete.tokens,
            Queue::Lifo => counts.lifo.tokens,
            Queue::Fifo => counts.fifo.tokens,
        }
    }

    fn has_counts(&self, wanted: [u64; 12]) -> bool {
        let counts = self.tokens.counts();
        are_counts(counts.obsolete, &wanted[0..4])
            && are_counts(counts.lifo, &wanted[4..8])
            && are_counts(counts.fifo, &wanted[8..12])
    }
}

/// Whether the counts of a queue are these four.
fn are_counts(counts: QueueCounts, wanted: &[u64]) -> bool {
    wanted
        == [
            counts.tokens as u64,
            counts.ripe as u64,
            counts.next,
            counts.last,
        ]
        .as_slice()
}
