//! The ageing of idle tasks in the two ageing bands. All memory is taken at the start.
#![tactic(auto)]

ghost use Rattle.std.specs.Prelude.{◌≡◌, ◌<◌, length, set, replicate, Some, None, IfOk};
ghost use Rattle.idle_ageing.specs.Ageing.{aged, ticked, IsPaired};

mod counts;
mod reached;

use counts::no_counts;
use kern_ids::entries::NoMemory;
use kern_ids::ids::TaskId;
use kern_ids::lines::TaskLine;
use priority_bands::Bands;
use std::alloc::Global;
use std::marker::Model;

/// For each task its delay, and the ticks since its count began where it counts.
#[derive(Drop)]
pub struct Ages {
    delays: Vec<u32>,
    counts: Vec<Option<u32>>,
}

impl Model for Ages {
    ghost use Rattle.std.specs.Prelude.{◌≡◌, length};
    ghost use Rattle.idle_ageing.specs.Ageing.{Ageing};

    ghost Value = { Ageing };

    ghost view = { λ a. record { delays = a.delays.items; counts = a.counts.items } };

    ghost invariant = { λ a. length a.counts.items ≡ length a.delays.items };
}

impl Ages {
    /// A delay for each task, from task 0 on. No task counts.
    pub fn new(alloc: Global, delays: &[u32]) -> Result<Ages, NoMemory>
        ensures { IfOk result (λ made. made ≡ record { delays = delays.now; counts = replicate (length delays.now) None }) }
    {
        let kept = Vec::from_slice(alloc, delays).map_err(|_| NoMemory)?;
        Ok(Ages {
            delays: kept,
            counts: no_counts(alloc, delays.len())?,
        })
    }

    /// What is true of all ages, for a proof that needs it.
    pub fn are_paired(&self)
        ensures { IsPaired self.now }
    {
        let _counts = &self.counts;
    }

    /// A task begins to count, from 0.
    pub fn restart(&mut self, t: TaskId)
        requires { t < length self.old.counts }
        ensures delays { self.new.delays ≡ self.old.delays }
        ensures counts { self.new.counts ≡ set self.old.counts t (Some 0) }
    {
        self.counts[t.get() as usize] = Some(0);
    }

    /// A task counts no more.
    pub fn stop(&mut self, t: TaskId)
        requires { t < length self.old.counts }
        ensures delays { self.new.delays ≡ self.old.delays }
        ensures counts { self.new.counts ≡ set self.old.counts t None }
    {
        self.counts[t.get() as usize] = None;
    }

    /// One tick more for each task that counts. Answers those of bands 1 and 2 that have reached their
    /// delay by it, in the order of band 1 and then of band 2; they count no more.
    pub fn tick(&mut self, b: &Bands) -> TaskLine
        ensures aged { result ≡ aged self.old b.now }
        ensures counts { self.new ≡ ticked self.old b.now }
    {
        b.are_bands();
        self.count_up();
        let mut line = TaskLine::new();
        self.list_reached(b, 1, &mut line);
        self.list_reached(b, 2, &mut line);
        self.stop_all(&line);
        line
    }
}
