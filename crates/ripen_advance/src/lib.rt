//! The ripening tokens of the three queues: each learns of every page that enters and leaves the
//! inactive queue, and what a ripe purge takes is taken here.
#![tactic(auto)]

ghost use Rattle.std.specs.Prelude.{◌≡◌, ◌≤◌, ◌<◌, ◌+◌, ◌-◌, ◌^◌, ◌∷◌, ◌++◌, [], length, drop, slice_get, IfOk, true};
ghost use Rattle.token_list.specs.Dues.{lowered_by, begins_ripe, counts_of};
ghost use Rattle.ripen_advance.specs.Queues.{dues_in, with_dues, new_due, all_but_last, first_into, AreDues, CanServe, after_ripe};

use kern_ids::calls::Queue;
use kern_ids::entries::NoMemory;
use kern_ids::replies::TokenCounts;
use std::alloc::Global;
use std::marker::Model;
use token_list::TokenList;

/// The tokens of the three queues. The tokens of OBSOLETE are always ripe.
#[derive(Drop)]
pub struct TokenQueues {
    obsolete: TokenList,
    lifo: TokenList,
    fifo: TokenList,
}

impl Model for TokenQueues {
    ghost use Rattle.ripen_advance.specs.Queues.{QueueDues};

    ghost Value = { QueueDues };

    ghost use Rattle.ripen_advance.specs.Kept.{queue_dues, IsKept};

    ghost view = { queue_dues };

    ghost invariant = { IsKept };
}

impl TokenQueues {
    /// No tokens, and no page ahead.
    pub fn new(alloc: Global) -> Result<TokenQueues, NoMemory>
        ensures { IfOk result (λ queues. queues ≡ record { obsolete = []; lifo = []; fifo = []; ahead = 0 }) }
    {
        Ok(TokenQueues {
            obsolete: TokenList::new(alloc)?,
            lifo: TokenList::new(alloc)?,
            fifo: TokenList::new(alloc)?,
        })
    }

    /// n pages entered the inactive queue.
    pub fn entered(&mut self, n: u32)
        requires { self.old.ahead + n < 2 ^ 32 }
        ensures { self.new ≡ record self.old { ahead = self.old.ahead + n } }
    {
        self.obsolete.entered(n);
        self.lifo.entered(n);
        self.fifo.entered(n);
    }

    /// n pages left the inactive queue: each due falls by n, not below 0.
    pub fn departed(&mut self, n: u32)
        requires { n ≤ self.old.ahead }
        ensures obsolete { self.new.obsolete ≡ lowered_by n self.old.obsolete }
        ensures lifo { self.new.lifo ≡ lowered_by n self.old.lifo }
        ensures fifo { self.new.fifo ≡ lowered_by n self.old.fifo }
        ensures ahead { self.new.ahead ≡ self.old.ahead - n }
    {
        self.obsolete.advance(n);
        self.lifo.advance(n);
        self.fifo.advance(n);
    }

    /// One more token at the end of a queue: it is ripe once all pages ahead have left, in OBSOLETE at once.
    pub fn add(&mut self, q: Queue)
        requires { length (dues_in self.old q) < 256 }
        ensures { self.new ≡ with_dues self.old q (dues_in self.old q ++ new_due self.old q ∷ []) }
    {
        match q {
            Queue::Obsolete => self.obsolete.insert(0),
            Queue::Lifo => self.lifo.add(),
            Queue::Fifo => self.fifo.add(),
        }
    }

    /// Drops the first token of a queue.
    pub fn drop_first(&mut self, q: Queue)
        requires { 0 < length (dues_in self.old q) }
        ensures { self.new ≡ with_dues self.old q (drop 1 (dues_in self.old q)) }
    {
        let _due = match q {
            Queue::Obsolete => self.obsolete.drop_first(),
            Queue::Lifo => self.lifo.drop_first(),
            Queue::Fifo => self.fifo.drop_first(),
        };
    }

    /// Drops the last token of a queue.
    pub fn drop_last(&mut self, q: Queue)
        requires { 0 < length (dues_in self.old q) }
        ensures { self.new ≡ with_dues self.old q (all_but_last (dues_in self.old q)) }
    {
        let _due = match q {
            Queue::Obsolete => self.obsolete.drop_last(),
            Queue::Lifo => self.lifo.drop_last(),
            Queue::Fifo => self.fifo.drop_last(),
        };
    }

    /// Whether a queue has a first token, and it is ripe.
    pub fn ripe(&self, q: Queue) -> bool
        ensures { result ≡ begins_ripe (dues_in self.now q) }
    {
        match q {
            Queue::Obsolete => self.obsolete.first_is_ripe(),
            Queue::Lifo => self.lifo.first_is_ripe(),
            Queue::Fifo => self.fifo.first_is_ripe(),
        }
    }

    /// The due of token k of a queue, from 0; None exactly past the end.
    pub fn count_at(&self, q: Queue, k: u32) -> Option<u64>
        ensures { result ≡ slice_get (dues_in self.now q) k }
    {
        match q {
            Queue::Obsolete => self.obsolete.due_at(k),
            Queue::Lifo => self.lifo.due_at(k),
            Queue::Fifo => self.fifo.due_at(k),
        }
    }

    /// For each queue the number of tokens and of ripe ones, the due of the first that isn't ripe, and
    /// that of the last, each 0 where there is none.
    pub fn counts(&self) -> TokenCounts
        ensures obsolete { result.obsolete ≡ counts_of self.now.obsolete }
        ensures lifo { result.lifo ≡ counts_of self.now.lifo }
        ensures fifo { result.fifo ≡ counts_of self.now.fifo }
        ensures dues { (q : Queue) → AreDues (dues_in self.now q) self.now.ahead }
    {
        TokenCounts {
            obsolete: self.obsolete.counts(),
            lifo: self.lifo.counts(),
            fifo: self.fifo.counts(),
        }
    }

    /// Takes the token for the purge of an object that was in `object_queue`, chosen for the ripe
    /// first token of `token_queue`.
    ///
    /// It is the first token of the object's own queue where that one is ripe. Otherwise the token
    /// queue's first goes, and the first of the object's queue takes its place among those of the token
    /// queue, after all whose dues aren't greater.
    pub fn take_ripe(&mut self, token_queue: Queue, object_queue: Queue)
        requires ripe { begins_ripe (dues_in self.old token_queue) ≡ true }
        requires object { 0 < length (dues_in self.old object_queue) }
        requires queues { CanServe token_queue object_queue }
        ensures { self.new ≡ after_ripe token_queue object_queue self.old }
    {
        if self.ripe(object_queue) {
            self.drop_first(object_queue);
            return;
        }
        match token_queue {
            Queue::Lifo => move_first(&mut self.lifo, &mut self.fifo),
            Queue::Fifo => move_first(&mut self.fifo, &mut self.lifo),
            Queue::Obsolete => {}
        }
    }
}

/// Drops the first token of a list, and moves the first of another to its place there.
fn move_first(to: &mut TokenList, from: &mut TokenList)
    requires some { 0 < length to.old.dues }
    requires other { 0 < length from.old.dues }
    requires ahead { from.old.ahead ≡ to.old.ahead }
    ensures to { to.new.dues ≡ first_into from.old.dues (drop 1 to.old.dues) }
    ensures from { from.new.dues ≡ drop 1 from.old.dues }
    ensures to_ahead { to.new.ahead ≡ to.old.ahead }
    ensures from_ahead { from.new.ahead ≡ from.old.ahead }
{
    let _gone = to.drop_first();
    let due = from.drop_first();
    to.insert(due);
}
