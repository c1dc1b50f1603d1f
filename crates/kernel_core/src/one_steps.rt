//! One call, with the body of the object that it needs, or with none.

ghost use Rattle.std.specs.Prelude.{◌≡◌, ◌++◌, ◌∷◌, [], ◌<◌, length, reverse, IsTrue, OnOk, OnErr, None, Some};
ghost use Rattle.kernel_model.specs.Answers.{answer};
ghost use Rattle.kernel_model.specs.Histories.{fits};
ghost use Rattle.kernel_core.specs.Touches.{needed_number};
ghost use Rattle.kernel_core.specs.OneThreads.{HasBodies};

use crate::effect::{apply, look, no_bytes, prepare};
use crate::kernel::Kernel;
use crate::log::Log;
use kern_ids::calls::Call;
use kern_ids::entries::NoMemory;
use kern_ids::ids::ThreadId;
use kern_ids::replies::Reply;
use kernel_model::boot::Boot;
use page_store::Body;

// Makes a call that needs no object.
pub(crate) fn step_alone<L: Log>(
    kernel: &mut Kernel<L>,
    who: ThreadId,
    call: &Call,
    reply: &mut Reply,
) -> Result<(), NoMemory>
    requires fits { IsTrue (fits kernel.old.boot who call.now) }
    requires alone { needed_number kernel.old.boot (reverse kernel.old.history) who call.now ≡ None }
    ensures reply { OnOk result (reply.new ≡ answer kernel.old.boot (reverse kernel.old.history) who call.now) }
    ensures entry { OnOk result (kernel.new.history ≡ kernel.old.history ++ record { who = who; call = call.now; reply = reply.new } ∷ []) }
    ensures boot { kernel.new.boot ≡ kernel.old.boot }
    ensures unchanged { OnErr result (kernel.new.history ≡ kernel.old.history) }
    ensures reply_kept { OnErr result (reply.new ≡ reply.old) }
{
    kernel.reserve(1)?;
    kernel.step(who, call, no_bytes(), reply);
    Ok(())
}

// Makes a call that needs object o. What the reply says is then done to its body.
pub(crate) fn step_with<L: Log>(
    boot: &Boot,
    kernel: &mut Kernel<L>,
    bodies: &mut Vec<Body>,
    o: u32,
    who: ThreadId,
    call: &Call,
    reply: &mut Reply,
) -> Result<(), NoMemory>
    requires boot { kernel.old.boot ≡ boot.now }
    requires fits { IsTrue (fits boot.now who call.now) }
    requires needed { needed_number boot.now (reverse kernel.old.history) who call.now ≡ Some o }
    requires object { o < length boot.now.objects }
    requires bodies { HasBodies boot.now kernel.old.history bodies.old.items }
    ensures reply { OnOk result (reply.new ≡ answer boot.now (reverse kernel.old.history) who call.now) }
    ensures entry { OnOk result (kernel.new.history ≡ kernel.old.history ++ record { who = who; call = call.now; reply = reply.new } ∷ []) }
    ensures boot { kernel.new.boot ≡ kernel.old.boot }
    ensures unchanged { OnErr result (kernel.new.history ≡ kernel.old.history) }
    ensures reply_kept { OnErr result (reply.new ≡ reply.old) }
    ensures bodies { HasBodies boot.now kernel.new.history bodies.new.items }
{
    let body = &mut bodies[o as usize];
    prepare(boot, call, body)?;
    kernel.reserve(1)?;
    let seen = look(boot, call, body);
    kernel.step(who, call, seen, reply);
    apply(boot, call, reply, body);
    Ok(())
}
