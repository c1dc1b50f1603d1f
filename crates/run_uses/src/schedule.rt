//! A gate that makes two threads meet in one order.

use kern_ids::ids::ThreadId;
use kernel_shared::gate::{Gate, Point};
use std::sync::atomic::{AtomicU64, Ordering};

/// The nth time that a thread comes to a point.
#[derive(Clone, Copy, PartialEq, Eq, Debug)]
pub struct Moment {
    pub thread: u32,
    pub point: Point,
    pub nth: u64,
}

/// A thread is held at one moment until another one has come.
#[derive(Clone, Copy, PartialEq, Eq, Debug)]
pub struct Hold {
    pub at: Moment,
    pub until: Moment,
}

/// Holds threads 0 and 1 by some rules. A wait ends by itself after some turns of its loop, and is counted then.
#[derive(Drop)]
pub struct Schedule<'a> {
    holds: &'a [Hold],
    object_taken: [AtomicU64; 2],
    before_turn: [AtomicU64; 2],
    after_turn: [AtomicU64; 2],
    ended: AtomicU64,
}

/// The most turns that a wait takes.
const TURNS: u32 = 100_000_000;

impl<'a> Schedule<'a> {
    pub fn new(holds: &'a [Hold]) -> Schedule<'a> {
        Schedule {
            holds,
            object_taken: [AtomicU64::new(0), AtomicU64::new(0)],
            before_turn: [AtomicU64::new(0), AtomicU64::new(0)],
            after_turn: [AtomicU64::new(0), AtomicU64::new(0)],
            ended: AtomicU64::new(0),
        }
    }

    /// How many waits were ended by the limit of their turns.
    pub fn ended(&self) -> u64 {
        self.ended.load(Ordering::SeqCst)
    }

    /// How often a thread has come to a point.
    pub fn count(&self, thread: u32, point: Point) -> u64 {
        self.counter(thread, point).load(Ordering::SeqCst)
    }

    fn counter(&self, thread: u32, point: Point) -> &AtomicU64 {
        let counters = match point {
            Point::ObjectTaken => &self.object_taken,
            Point::BeforeTurn => &self.before_turn,
            Point::AfterTurn => &self.after_turn,
        };
        if thread == 0 {
            &counters[0]
        } else {
            &counters[1]
        }
    }

    // Waits until the moment has come.
    fn wait(&self, until: Moment) {
        for _ in 0..TURNS {
            if until.nth <= self.count(until.thread, until.point) {
                return;
            }
        }
        self.ended.fetch_add(1, Ordering::SeqCst);
    }
}

impl Gate for Schedule<'_> {
    fn at(&self, who: ThreadId, point: Point) {
        let thread = who.get();
        let before = self.counter(thread, point).fetch_add(1, Ordering::SeqCst);
        for hold in self.holds {
            let at = hold.at;
            if at.thread == thread
                && at.point == point
                && before < u64::MAX
                && at.nth == before + 1
            {
                self.wait(hold.until);
            }
        }
    }
}
