//! A gate that lets one of two threads go at a time, as a plan says.

use kern_ids::calls::{Call, State};
use kern_ids::ids::ThreadId;
use kern_ids::replies::Reply;
use kernel_shared::gate::{Gate, Point};
use std::sync::Wait;
use std::sync::atomic::{AtomicU64, Ordering};

/// Which thread goes at each step. Step i has the mask 2^i.
#[derive(Clone, Copy, PartialEq, Eq, Debug)]
pub struct Plan {
    /// The masks of the steps at which thread 1 goes.
    pub second: u64,
    /// The mask of the first step that is not planned. From there on thread 0 goes wherever it can.
    pub end: u64,
}

/// The steps of a run.
#[derive(Clone, Copy, PartialEq, Eq, Debug)]
pub struct Steps {
    /// The masks of the steps at which thread 1 went.
    pub second: u64,
    /// The masks of the steps at which either thread could go.
    pub open: u64,
    /// The mask after that of the last step, or 0 where there were too many steps.
    pub end: u64,
}

/// What a thread needs for its next step.
const NOTHING: u64 = 0;

const WORD: u64 = 1;

const WORD_OF_A_VOLATILE: u64 = 2;

const DONE: u64 = 3;

/// The number of no thread.
const NOBODY: u64 = 2;

impl Plan {
    /// Nothing is planned.
    pub fn new() -> Plan {
        Plan { second: 0, end: 1 }
    }

    // Thread 1 goes at this step, where it can.
    fn is_second(&self, step: u64) -> bool {
        step < self.end && self.second & step != 0
    }
}

impl Steps {
    /// The next plan: the last step at which thread 1 could have gone and did not is made otherwise, and those before
    /// it are kept, as are all steps before that of the mask `from`. So plans that begin with the empty one come to each order once.
    pub fn next_plan(&self, from: u64) -> Option<Plan> {
        let mut step = self.end;
        for _ in 0..64 {
            step >>= 1;
            if step == 0 {
                return None;
            }
            if step < from {
                return None;
            }
            if self.open & step != 0 && self.second & step == 0 {
                return Some(Plan {
                    second: (self.second & (step - 1)) | step,
                    end: step << 1,
                });
            }
        }
        None
    }
}

/// Lets threads 0 and 1 go from stop to stop, one at a time. A thread stops before each of its calls and at each point of
/// it. A step that would wait for the word of the object is not made while the other thread holds it.
#[derive(Drop)]
pub struct Baton<'a, R: Wait> {
    rt: &'a R,
    plan: Plan,
    goes: AtomicU64,
    came: AtomicU64,
    needs: [AtomicU64; 2],
    holds: [AtomicU64; 2],
    is_volatile: AtomicU64,
    step: AtomicU64,
    second: AtomicU64,
    open: AtomicU64,
}

impl<'a, R: Wait> Baton<'a, R> {
    /// Both threads are before their first call. The object is volatile.
    pub fn new(rt: &'a R, plan: Plan) -> Baton<'a, R> {
        Baton {
            rt,
            plan,
            goes: AtomicU64::new(NOBODY),
            came: AtomicU64::new(0),
            needs: [AtomicU64::new(NOTHING), AtomicU64::new(NOTHING)],
            holds: [AtomicU64::new(0), AtomicU64::new(0)],
            is_volatile: AtomicU64::new(1),
            step: AtomicU64::new(1),
            second: AtomicU64::new(0),
            open: AtomicU64::new(0),
        }
    }

    /// The steps that were made.
    pub fn steps(&self) -> Steps {
        Steps {
            second: self.second.load(Ordering::SeqCst),
            open: self.open.load(Ordering::SeqCst),
            end: self.step.load(Ordering::SeqCst),
        }
    }

    /// The thread is before this call.
    pub fn before_call(&self, thread: u32, call: &Call) {
        self.set_needs(thread, need_of(call));
        if self.came.load(Ordering::SeqCst) < 2 {
            self.begin();
        } else {
            self.hand_on();
        }
        self.wait(thread);
    }

    /// The thread has made this call, and holds nothing.
    pub fn after_call(&self, thread: u32, call: &Call, reply: &Reply) {
        of(&self.holds, thread).store(0, Ordering::SeqCst);
        if let Some(is_volatile) = change(call, reply) {
            self.is_volatile.store(is_volatile, Ordering::SeqCst);
        }
    }

    /// The thread has made its last call.
    pub fn finish(&self, thread: u32) {
        self.set_needs(thread, DONE);
        self.hand_on();
    }

    fn set_needs(&self, thread: u32, needs: u64) {
        of(&self.needs, thread).store(needs, Ordering::SeqCst);
    }

    // A thread came to its first call. The second one to come lets one of them go.
    fn begin(&self) {
        if self.came.fetch_add(1, Ordering::SeqCst) == 1 {
            self.hand_on();
        }
    }

    // The thread's next step waits for nothing.
    fn can_go(&self, thread: u32, other: u32) -> bool {
        let is_held = of(&self.holds, other).load(Ordering::SeqCst) != 0;
        match of(&self.needs, thread).load(Ordering::SeqCst) {
            NOTHING => true,
            WORD => !is_held,
            WORD_OF_A_VOLATILE => !is_held || self.is_volatile.load(Ordering::SeqCst) == 0,
            _ => false,
        }
    }

    // Lets a thread go that can.
    fn hand_on(&self) {
        let first = self.can_go(0, 1);
        let second = self.can_go(1, 0);
        if !first && !second {
            self.let_go(NOBODY);
            return;
        }
        let step = self.step.load(Ordering::SeqCst);
        self.step.store(step << 1, Ordering::SeqCst);
        if first && second {
            self.open.fetch_or(step, Ordering::SeqCst);
        }
        if first && !(second && self.plan.is_second(step)) {
            self.let_go(0);
        } else {
            self.second.fetch_or(step, Ordering::SeqCst);
            self.let_go(1);
        }
    }

    // Says which thread may go.
    fn let_go(&self, thread: u64) {
        if self.goes.swap(thread, Ordering::SeqCst) != thread {
            self.goes.wake_one();
        }
    }

    // Waits until the thread may go.
    fn wait(&self, thread: u32) {
        for _ in self.rt.forever() {
            let goes = self.goes.load(Ordering::SeqCst);
            if goes == u64::from(thread) {
                return;
            }
            let seen = if goes == NOBODY {
                2
            } else if thread == 0 {
                1
            } else {
                0
            };
            self.goes.park(self.rt, seen);
        }
    }

    // Stops the thread until it may go on to a step that needs this.
    fn stop(&self, thread: u32, needs: u64) {
        self.set_needs(thread, needs);
        self.hand_on();
        self.wait(thread);
    }
}

impl<R: Wait> Gate for Baton<'_, R> {
    fn at(&self, who: ThreadId, point: Point) {
        let thread = who.get();
        match point {
            Point::ObjectTaken => {
                of(&self.holds, thread).store(1, Ordering::SeqCst);
                self.stop(thread, NOTHING);
            }
            Point::BeforeTurn => {
                let holds = of(&self.holds, thread).load(Ordering::SeqCst);
                let looks = thread == 1 && holds == 0;
                self.stop(thread, if looks { WORD_OF_A_VOLATILE } else { NOTHING });
            }
            Point::AfterTurn => self.stop(thread, NOTHING),
        }
    }
}

// That of a thread.
fn of(both: &[AtomicU64; 2], thread: u32) -> &AtomicU64 {
    if thread == 0 { &both[0] } else { &both[1] }
}

// What the first step of a call needs.
fn need_of(call: &Call) -> u64 {
    match call {
        Call::Write { .. } => WORD,
        _ => NOTHING,
    }
}

// 1 where the call made the object volatile, 0 where it is no longer so.
fn change(call: &Call, reply: &Reply) -> Option<u64> {
    match (call, reply) {
        (Call::SetState { word, .. }, Reply::Old(state)) => {
            Some(u64::from(*word == 1 && *state != State::Empty))
        }
        (_, Reply::Purged(_)) => Some(0),
        _ => None,
    }
}
