//! The state of a task and of an object after a history.

ghost use Rattle.std.specs.Prelude.{◌≡◌, ◌<◌, ℕ, List, length, true};
ghost use Rattle.std.specs.Option.{unwrap_or};
ghost use Rattle.kern_ids.specs.declared.entries.Entry.{Entry};
ghost use Rattle.kernel_model.specs.Lists.{some_if};
ghost use Rattle.kernel_model.specs.Mapping as mappings;
ghost use Rattle.link_list.specs.KeyLists.{place_of};
ghost use Rattle.kernel_tables.specs.Standing as spec;
ghost use Rattle.kernel_tables.specs.Stands.{Stands};
ghost use Rattle.kernel_tables.specs.Values.{values};

use crate::parts::Parts;
use crate::verdicts::wishes_are_bands;
use kern_ids::calls::State;
use kern_ids::ids::{ObjId, TaskId};
use kern_ids::replies::Counts;
use priority_bands::Bands;

/// The state of a live task: its band, whether it is active, and its pages.
#[derive(Clone, Copy)]
pub struct LiveTask {
    pub band: u32,
    pub active: bool,
    pub counts: Counts,
}

/// The state of a mapped object: its purgeable state, and how many of its pages are Active, Inactive and
/// Stored.
#[derive(Clone, Copy)]
pub struct MappedObject {
    pub state: State,
    pub active: u32,
    pub inactive: u32,
    pub stored: u32,
}

/// The number of the band in which a task is, 0 where it is in none.
fn band_number(bands: &Bands, t: TaskId) -> u32
    ensures { result ≡ unwrap_or (place_of t bands.now) 0 }
{
    match bands.band_of(t) {
        Some(band) => band.get(),
        None => 0,
    }
}

impl Parts {
    fn live_task(&self, t: TaskId) -> LiveTask
        ghost past: { List Entry }
        requires stands { Stands (values self.now) past }
        requires declared { t < length self.now.boot.tasks }
        requires live { mappings.live self.now.boot past t ≡ true }
        ensures { result ≡ spec.live_task self.now.boot past t }
    {
        self.boot.valid();
        self.tasks.bands.are_bands();
        wishes_are_bands(&self.tasks.wishes);
        LiveTask {
            band: band_number(&self.tasks.bands, t),
            active: self.tasks.ledgers.is_active(t),
            counts: self.tasks.ledgers.counts(t),
        }
    }

    /// The state of a task, if it lives.
    pub(crate) fn task(&self, t: TaskId) -> Option<LiveTask>
        ghost past: { List Entry }
        requires stands { Stands (values self.now) past }
        requires declared { t < length self.now.boot.tasks }
        ensures { result ≡ some_if (mappings.live self.now.boot past t) (spec.live_task self.now.boot past t) }
    {
        if self.tasks.ledgers.is_live(t) {
            Some(self.live_task(t))
        } else {
            None
        }
    }

    fn mapped_object(&self, o: ObjId) -> MappedObject
        ghost past: { List Entry }
        requires stands { Stands (values self.now) past }
        requires object { o < length self.now.boot.objects }
        requires mapped { mappings.mapped self.now.boot past o ≡ true }
        ensures { result ≡ spec.mapped_object self.now.boot past o }
    {
        let places = self.objects.pages.object_counts(o);
        MappedObject {
            state: self.state(o),
            active: places.active,
            inactive: places.inactive,
            stored: places.stored,
        }
    }

    /// The state of an object, if it is mapped.
    pub(crate) fn object(&self, o: ObjId) -> Option<MappedObject>
        ghost past: { List Entry }
        requires stands { Stands (values self.now) past }
        requires object { o < length self.now.boot.objects }
        ensures { result ≡ some_if (mappings.mapped self.now.boot past o) (spec.mapped_object self.now.boot past o) }
    {
        if self.is_mapped(o) {
            Some(self.mapped_object(o))
        } else {
            None
        }
    }
}
