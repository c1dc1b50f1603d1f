//! The counts, changed for many tasks at once.

ghost use Rattle.std.specs.Prelude.{◌≡◌, ℕ, true, ◌<◌, length, replicate, min, ◌+◌, option_map, None, IfOk};
ghost use Rattle.link_list.specs.KeyLists.{has};
ghost use Rattle.idle_ageing.specs.Ageing.{one_more, counted, stopped};

use crate::Ages;
use kern_ids::entries::NoMemory;
use kern_ids::lines::TaskLine;
use std::alloc::Global;

/// No count for any of n tasks.
pub(crate) fn no_counts(alloc: Global, n: usize) -> Result<Vec<Option<u32>>, NoMemory>
    ensures { IfOk result (λ made. made.items ≡ replicate n None) }
{
    let mut counts = Vec::with_capacity(alloc, n).map_err(|_| NoMemory)?;
    for _ in 0..n {
        counts.push(None).map_err(|_| NoMemory)?;
    }
    Ok(counts)
}

/// A count after one tick more: it stays at the delay.
fn next_count(delay: u32, count: Option<u32>) -> Option<u32>
    ensures { result ≡ option_map (one_more delay) count }
{
    match count {
        Some(ticks) => Some(if ticks < delay { ticks + 1 } else { delay }),
        None => None,
    }
}

impl Ages {
    /// One tick more for each task that counts.
    pub(crate) fn count_up(&mut self)
        ensures { self.new ≡ counted self.old }
    {
        for t in 0..self.counts.len() {
            self.counts[t] = next_count(self.delays[t], self.counts[t]);
        }
    }

    /// Each task of a line counts no more.
    pub(crate) fn stop_all(&mut self, tasks: &TaskLine)
        requires { (t : ℕ) → has t tasks.now ≡ true → t < length self.old.counts }
        ensures { self.new ≡ stopped self.old tasks.now }
    {
        for i in 0..tasks.len() {
            if let Some(t) = tasks.get(i) {
                self.stop(t);
            }
        }
    }
}
