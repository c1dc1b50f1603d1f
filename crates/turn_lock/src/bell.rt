//! Where threads wait for a word that is taken. No proof sees it: whether a thread sleeps or not, it gets in only
//! by its step on the word.

ghost use Rattle.std.specs.Prelude.{◌≡◌, length, IfOk};

use std::alloc::{AllocError, Global};
use std::hint::spin_loop;
use std::sync::Wait;
use std::sync::atomic::{AtomicU64, Ordering};

/// How often a thread looks again before it sleeps.
const LOOKS: u32 = 100;

/// What a thread has done to get in.
#[derive(Clone, Copy)]
pub enum Waiting {
    /// It has looked so often.
    Looking(u32),
    /// It has asked to be woken, and has looked again since.
    Asking,
}

/// The bell of one word. It is 1 where a thread asked to be woken and nobody has been since, and else 0.
#[derive(Drop)]
pub struct Bell {
    asked: AtomicU64,
}

impl Bell {
    fn new() -> Bell {
        Bell {
            asked: AtomicU64::new(0),
        }
    }

    /// The word was found taken. A thread looks again for a while, but not where others sleep already. Then it asks, looks once
    /// more, and sleeps until the bell is rung. When it wakes it asks again, since others may sleep yet.
    pub fn wait<R: Wait>(&self, rt: &R, so_far: Waiting) -> Waiting {
        match so_far {
            Waiting::Looking(n) if n < LOOKS && self.asked.load(Ordering::SeqCst) == 0 => {
                spin_loop();
                return Waiting::Looking(n + 1);
            }
            Waiting::Looking(_) => {}
            Waiting::Asking => self.asked.park(rt, 1),
        }
        self.asked.store(1, Ordering::SeqCst);
        Waiting::Asking
    }

    /// The word was given up: one thread that sleeps wakes. Where nobody asked it is one load.
    pub fn ring(&self) {
        if self.asked.load(Ordering::SeqCst) == 1 && self.asked.swap(0, Ordering::SeqCst) == 1 {
            self.asked.wake_one();
        }
    }
}

/// So many bells.
pub fn bells(alloc: Global, count: usize) -> Result<Vec<Bell>, AllocError>
    ensures { IfOk result (λ bells. length bells.items ≡ count) }
{
    let mut bells = Vec::new(alloc);
    for _ in 0..count {
        bells.push(Bell::new())?;
    }
    Ok(bells)
}
