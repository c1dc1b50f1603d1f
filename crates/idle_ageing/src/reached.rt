//! Which tasks have reached their delay.

ghost use Rattle.std.specs.Prelude.{◌≡◌, ◌<◌, ◌≤◌, ◌+◌, ◌++◌, ◌∷◌, [], if◌then◌else◌, length, filter, slice_get};
ghost use Rattle.link_list.specs.KeyLists.{list_at};
ghost use Rattle.idle_ageing.specs.Ageing.{has_reached};

use crate::Ages;
use kern_ids::ids::{Band, TaskId};
use kern_ids::lines::TaskLine;
use priority_bands::Bands;

/// The head of the band of a number.
fn head_of(b: &Bands, band: u32) -> Option<TaskId>
    requires { band < 21 }
    ensures { result ≡ slice_get (list_at b.now band) 0 }
{
    match Band::new(band) {
        Some(band) => b.first(band),
        None => None,
    }
}

/// Appends a task to a line where it is wanted there.
fn push_if(line: &mut TaskLine, t: TaskId, wanted: bool)
    requires { length line.old < 64 }
    ensures { line.new ≡ (if wanted then line.old ++ t ∷ [] else line.old) }
{
    if wanted {
        line.push(t);
    }
}

impl Ages {
    /// Whether a task counts and has reached its delay.
    fn has_reached(&self, t: TaskId) -> bool
        ensures { result ≡ has_reached self.now t }
    {
        let at = t.get() as usize;
        if at >= self.counts.len() {
            return false;
        }
        match self.counts[at] {
            Some(ticks) => self.delays[at] <= ticks,
            None => false,
        }
    }

    /// Appends the tasks of a band that have reached their delay, in the order of the band.
    pub(crate) fn list_reached(&self, b: &Bands, band: u32, line: &mut TaskLine)
        requires band { band < 21 }
        requires room { length line.old + length (list_at b.now band) ≤ 64 }
        ensures { line.new ≡ line.old ++ filter (has_reached self.now) (list_at b.now band) }
    {
        b.are_bands();
        let mut at = head_of(b, band);
        while let Some(t) = at {
            push_if(line, t, self.has_reached(t));
            at = b.next(t);
        }
    }
}
