//! Operations on the tokens of the three queues.

ghost use Rattle.std.specs.Prelude.{◌≡◌, ◌<◌, length};
ghost use Rattle.ripen_advance.specs.Queues.{dues_in, CanServe};

use crate::draws::{Draws, mixed};
use kern_ids::calls::Queue;
use kern_ids::entries::NoMemory;
use ripen_advance::TokenQueues;
use std::alloc::Global;

/// No page enters once so many are ahead.
const MOST_AHEAD: u32 = 1_000_000;

/// The tokens of the queues, how many pages are ahead, and the checksum of what was answered.
#[derive(Drop)]
struct QueueRun {
    queues: TokenQueues,
    ahead: u32,
    sum: u64,
    ghost ahead_is: { queues.ahead ≡ ahead },
}

/// Does so many operations on new queues; answers the checksum.
pub fn run(alloc: Global, operations: u32) -> Result<u64, NoMemory> {
    let mut draws = Draws::new();
    let mut run = QueueRun {
        queues: TokenQueues::new(alloc)?,
        ahead: 0,
        sum: 0,
    };
    for _ in 0..operations {
        run.step(draws.next());
    }
    Ok(run.sum)
}

/// One of the queues.
fn queue_drawn(drawn: u64) -> Queue {
    match drawn % 4 {
        0 => Queue::Obsolete,
        1 => Queue::Lifo,
        _ => Queue::Fifo,
    }
}

/// A queue of tokens and one of objects that it can serve.
fn queues_drawn(drawn: u64) -> (Queue, Queue)
    ensures { CanServe result.0 result.1 }
{
    match drawn % 5 {
        0 => (Queue::Obsolete, Queue::Obsolete),
        1 => (Queue::Lifo, Queue::Lifo),
        2 => (Queue::Lifo, Queue::Fifo),
        3 => (Queue::Fifo, Queue::Lifo),
        _ => (Queue::Fifo, Queue::Fifo),
    }
}

impl QueueRun {
    /// The operation of a drawn number.
    fn step(&mut self, drawn: u64) {
        let pages = (drawn / 16 % 4) as u32;
        let queue = queue_drawn(drawn / 64);
        match drawn % 16 {
            0..=2 => self.enter(pages),
            3..=5 => self.leave(pages),
            6..=8 => self.add(queue),
            9 => self.drop_first(queue),
            10 => self.drop_last(queue),
            11 | 12 => self.purge(drawn / 64),
            13 => self.sum = mixed(self.sum, self.queues.ripe(queue) as u64),
            14 => {
                let due = self.queues.count_at(queue, pages).unwrap_or(0);
                self.sum = mixed(self.sum, due);
            }
            _ => {
                let counts = self.queues.counts();
                let aged = mixed(counts.lifo.next, counts.fifo.last);
                self.sum = mixed(mixed(self.sum, aged), counts.obsolete.ripe as u64);
            }
        }
    }

    /// The number of the tokens of a queue.
    fn tokens(&self, queue: Queue) -> u32
        ensures { result ≡ length (dues_in self.now.queues queue) }
    {
        let counts = self.queues.counts();
        match queue {
            Queue::Obsolete => counts.obsolete.tokens,
            Queue::Lifo => counts.lifo.tokens,
            Queue::Fifo => counts.fifo.tokens,
        }
    }

    /// Pages enter, if not too many are ahead.
    fn enter(&mut self, pages: u32)
        requires { pages < 4 }
    {
        if self.ahead < MOST_AHEAD {
            self.queues.entered(pages);
            self.ahead += pages;
        }
    }

    /// Pages leave, if so many are ahead.
    fn leave(&mut self, pages: u32) {
        if pages <= self.ahead {
            self.queues.departed(pages);
            self.ahead -= pages;
        }
    }

    /// One more token, if there is room.
    fn add(&mut self, queue: Queue) {
        if self.tokens(queue) < 256 {
            self.queues.add(queue);
        }
    }

    /// The first token of a queue goes.
    fn drop_first(&mut self, queue: Queue) {
        if self.tokens(queue) > 0 {
            self.queues.drop_first(queue);
        }
    }

    /// The last token of a queue goes.
    fn drop_last(&mut self, queue: Queue) {
        if self.tokens(queue) > 0 {
            self.queues.drop_last(queue);
        }
    }

    /// The token of a ripe purge goes.
    fn purge(&mut self, drawn: u64) {
        let (token_queue, object_queue) = queues_drawn(drawn);
        if self.queues.ripe(token_queue) && self.tokens(object_queue) > 0 {
            self.queues.take_ripe(token_queue, object_queue);
            self.sum = mixed(self.sum, self.tokens(token_queue) as u64);
        }
    }
}
