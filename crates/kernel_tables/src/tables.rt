//! The tables of a kernel.

ghost use Rattle.std.specs.Prelude.{◌≡◌, ◌<◌, ◌+◌, ◌^◌, ◌∷◌, [], List, length, IsTrue, IfOk};
ghost use Rattle.kern_ids.specs.declared.entries.Entry.{Entry};
ghost use Rattle.kern_ids.specs.declared.replies.Reply.TheVariants.{Frames, Tokens};
ghost use Rattle.kernel_model.specs.Answers.{answer, frames_reply, tokens_reply};
ghost use Rattle.kernel_model.specs.Lists.{some_if};
ghost use Rattle.kernel_model.specs.Mapping.{live, mapped};
ghost use Rattle.kernel_model.specs.Histories.{fits};
ghost use Rattle.kernel_model.specs.Events.{purged_by};
ghost use Rattle.kernel_model.specs.Pages.{free};
ghost use Rattle.kernel_tables.specs.Values.{entry_of};
ghost use Rattle.kernel_tables.specs.Seen.{SeesBytes};
ghost use Rattle.kernel_tables.specs.Standing.{live_task, mapped_object};
ghost use Rattle.kernel_tables.specs.Stands.{Stands};

use crate::parts::Parts;
use crate::standing::{LiveTask, MappedObject};
use kern_ids::calls::Call;
use kern_ids::entries::NoMemory;
use kern_ids::ids::{ObjId, TaskId, ThreadId};
use kern_ids::lines::ByteLine;
use kern_ids::replies::{FrameCounts, Reply, TokenCounts};
use kernel_model::boot::Boot;
use std::alloc::Global;
use std::marker::Model;

/// What the kernel began with, and what it keeps of the history: the places of the pages, the volatile
/// objects by their groups, the tokens, the objects, the accounts of the tasks, their bands, ages and wishes,
/// and how many pages were ever deactivated.
#[derive(Drop)]
pub struct Tables {
    parts: Parts,
}

impl Model for Tables {
    ghost use Rattle.kernel_tables.specs.Values.{TableValues, values};

    ghost Value = { TableValues };

    ghost view = { λ a. values a.parts };
}

impl Tables {
    /// The tables at the start: they represent the empty history. All memory is taken here.
    pub fn boot(alloc: Global, boot: &Boot) -> Result<Tables, NoMemory>
        ensures boot { IfOk result (λ tables. tables.boot ≡ boot.now) }
        ensures stands { IfOk result (λ tables. Stands tables []) }
    {
        let parts = Parts::new(alloc, boot)?;
        Ok(Tables { parts })
    }

    /// Answers a call, and counts it in: the reply is the definition's over every history that the tables
    /// represent, and afterwards they represent that history and the call's entry. A Read in range is given
    /// the bytes that the history gives to its object. Takes no memory, and always answers.
    pub fn step(&mut self, who: ThreadId, call: &Call, seen: ByteLine) -> Reply
        ghost past: { List Entry }
        requires stands { Stands self.old past }
        requires fits { IsTrue (fits self.old.boot who call.now) }
        requires seen { SeesBytes self.old.boot past call.now seen }
        requires room { length past + 1 < 2 ^ 64 }
        ensures reply { result ≡ answer self.old.boot past who call.now }
        ensures stands { Stands self.new (entry_of who call.now result ∷ past) }
        ensures boot { self.new.boot ≡ self.old.boot }
    {
        self.parts.step(who, call, seen)
    }

    /// The object that the call would purge, if it were made now. Takes no memory.
    pub fn purged(&self, who: ThreadId, call: &Call) -> Option<ObjId>
        ghost past: { List Entry }
        requires stands { Stands self.now past }
        requires fits { IsTrue (fits self.now.boot who call.now) }
        ensures { result ≡ purged_by (answer self.now.boot past who call.now) }
    {
        self.parts.purged(who, call)
    }

    /// The free frames. Takes no memory.
    pub fn free(&self) -> u32
        ghost past: { List Entry }
        requires stands { Stands self.now past }
        ensures { result ≡ free self.now.boot past }
    {
        self.parts.free()
    }

    /// The state of a task, if it lives. Takes no memory.
    pub fn task(&self, t: TaskId) -> Option<LiveTask>
        ghost past: { List Entry }
        requires stands { Stands self.now past }
        requires declared { t < length self.now.boot.tasks }
        ensures { result ≡ some_if (live self.now.boot past t) (live_task self.now.boot past t) }
    {
        self.parts.task(t)
    }

    /// The state of an object, if it is mapped. Takes no memory.
    pub fn object(&self, o: ObjId) -> Option<MappedObject>
        ghost past: { List Entry }
        requires stands { Stands self.now past }
        requires declared { o < length self.now.boot.objects }
        ensures { result ≡ some_if (mapped self.now.boot past o) (mapped_object self.now.boot past o) }
    {
        self.parts.object(o)
    }

    /// The pages by their places, as Info answers them. Takes no memory.
    pub fn frame_counts(&self) -> FrameCounts
        ghost past: { List Entry }
        requires { Stands self.now past }
        ensures { Frames result ≡ frames_reply self.now.boot past }
    {
        self.parts.frame_counts()
    }

    /// The tokens of each queue, as Purgeables answers them. Takes no memory.
    pub fn token_counts(&self) -> TokenCounts
        ghost past: { List Entry }
        requires { Stands self.now past }
        ensures { Tokens result ≡ tokens_reply self.now.boot past }
    {
        self.parts.token_counts()
    }
}
