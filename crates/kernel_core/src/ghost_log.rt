//! The log of a replay, which keeps no entries.

ghost use Rattle.std.specs.Prelude.{◌≡◌, ◌≤◌, ◌-◌, ◌∷◌, ◌++◌, [], length, OnOk};

use crate::log::{Log, MOST};
use crate::past::Past;
use kern_ids::calls::Call;
use kern_ids::entries::NoMemory;
use kern_ids::ids::ThreadId;
use kern_ids::replies::Reply;
use std::marker::Model;

/// A log that keeps how many entries there are. Only proofs know the entries.
#[derive(Drop)]
pub struct GhostLog {
    past: Past,
    count: usize,
}

impl Model for GhostLog {
    ghost use Rattle.std.specs.Prelude.{◌≡◌, ◌-◌, ◌≤◌, length};
    ghost use Rattle.kern_ids.specs.Entries.{Entries};

    ghost Value = { Entries };

    ghost view = { λ l. record { list = l.past.list; spare = 4294967296 - l.count } };

    ghost invariant = { λ l. (l.count ≡ length l.past.list) × (l.count ≤ 4294967296) };
}

impl GhostLog {
    /// No entries.
    pub fn new() -> GhostLog
        ensures { result.list ≡ [] }
    {
        GhostLog {
            past: Past::new(),
            count: 0,
        }
    }
}

impl Log for GhostLog {
    ghost list = { λ l. l.list };

    ghost spare = { λ l. l.spare };

    fn count(&self) -> usize {
        self.count
    }

    fn make_room(&mut self, n: usize) -> Result<(), NoMemory> {
        if MOST - self.count < n {
            return Err(NoMemory);
        }
        Ok(())
    }

    fn append(&mut self, who: ThreadId, call: &Call, reply: &Reply) {
        self.past = self.past.and(&who, call, reply);
        self.count += 1;
    }
}
