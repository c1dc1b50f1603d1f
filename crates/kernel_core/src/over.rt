//! The calls of the tables, over the history that they represent. The log is named for the proofs alone: no
//! body reads it.

ghost use Rattle.std.specs.Prelude.{◌≡◌, ◌<◌, ◌+◌, ◌^◌, ◌∷◌, List, length, IsTrue};
ghost use Rattle.kern_ids.specs.declared.entries.Entry.{Entry as AnEntry};
ghost use Rattle.kernel_model.specs.Answers.{answer};
ghost use Rattle.kernel_model.specs.Events.{purged_by};
ghost use Rattle.kernel_model.specs.Histories.{fits};
ghost use Rattle.kernel_model.specs.Pages.{free};
ghost use Rattle.kernel_tables.specs.Seen.{SeesBytes};
ghost use Rattle.kernel_tables.specs.Stands.{Stands};
ghost use Rattle.kernel_tables.specs.Values.{entry_of};

use crate::log::Log;
use kern_ids::calls::Call;
use kern_ids::ids::{ObjId, ThreadId};
use kern_ids::lines::ByteLine;
use kern_ids::replies::Reply;
use kernel_tables::tables::Tables;

// Answers a call, and counts it in.
pub(crate) fn step_over<L: Log>(
    tables: &mut Tables,
    _log: &L,
    who: ThreadId,
    call: &Call,
    seen: ByteLine,
    reply: &mut Reply,
)
    ghost past: { List AnEntry }
    requires stands { Stands tables.old past }
    requires fits { IsTrue (fits tables.old.boot who call.now) }
    requires seen { SeesBytes tables.old.boot past call.now seen }
    requires room { length past + 1 < 2 ^ 64 }
    ensures reply { reply.new ≡ answer tables.old.boot past who call.now }
    ensures stands { Stands tables.new (entry_of who call.now reply.new ∷ past) }
    ensures boot { tables.new.boot ≡ tables.old.boot }
{
    *reply = tables.step(who, call, seen);
}

// The object that the call would purge.
pub(crate) fn purged_over<L: Log>(
    tables: &Tables,
    _log: &L,
    who: ThreadId,
    call: &Call,
) -> Option<ObjId>
    ghost past: { List AnEntry }
    requires stands { Stands tables.now past }
    requires fits { IsTrue (fits tables.now.boot who call.now) }
    ensures { result ≡ purged_by (answer tables.now.boot past who call.now) }
{
    tables.purged(who, call)
}

// The free frames.
pub(crate) fn free_over<L: Log>(tables: &Tables, _log: &L) -> u32
    ghost past: { List AnEntry }
    requires { Stands tables.now past }
    ensures { result ≡ free tables.now.boot past }
{
    tables.free()
}
