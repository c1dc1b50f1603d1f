//! What a call does to the body of the object that it needs.

ghost use Rattle.std.specs.Prelude.{◌≡◌, false, length, [], IsTrue, reverse, IfOk, OnOk, None};
ghost use Rattle.std.specs.List.{AllByRecursion};
ghost use Rattle.kernel_model.specs.Answers.{bad_range};
ghost use Rattle.page_store.specs.Contents.{nothing};
ghost use Rattle.kernel_core.specs.Ranges.{IsPreparedFor, IsSeenOf, IsWriteInRange, reads_in_range};
ghost use Rattle.kern_ids.specs.StateWord.{decoded};
ghost use Rattle.std.specs.Option.{option_map_or};
ghost use Rattle.kernel_model.specs.Contents.{is_ask_empty};
ghost use Rattle.kernel_core.specs.Touches.{bytes_left, wasnt_empty, named_number, needed_number, IsDeclared};
ghost use Rattle.kernel_model.specs.Histories.{fits};

use crate::kernel::Kernel;
use crate::log::Log;
use crate::need::{Need, named};
use crate::range::bad_range;
use kern_ids::calls::{Call, State, Wish, decode_word};
use kern_ids::entries::NoMemory;
use kern_ids::ids::ThreadId;
use kern_ids::lines::ByteLine;
use kern_ids::replies::Reply;
use kernel_model::boot::Boot;
use page_store::Body;
use std::alloc::Global;

/// A body for each object, with nothing in it.
pub fn empty_bodies(alloc: Global, objects: usize) -> Result<Vec<Body>, NoMemory>
    ensures count { IfOk result (λ v. length v.items ≡ objects) }
    ensures empty { IfOk result (λ v. AllByRecursion (λ body. body ≡ nothing) v.items) }
{
    let mut bodies = Vec::new(alloc);
    for _i in 0..objects {
        bodies.push(Body::new(alloc)?).map_err(|_| NoMemory)?;
    }
    Ok(bodies)
}

/// The object whose bytes the call names.
pub fn named_number(call: &Call) -> Option<u32>
    ensures { result ≡ named_number call.now }
{
    match named(call) {
        Need::Bytes(o) => Some(o.get()),
        Need::Nothing => None,
    }
}

/// The object whose bytes the call needs now. It is a declared one.
pub fn needed_number<L: Log>(kernel: &Kernel<L>, who: ThreadId, call: &Call) -> Option<u32>
    requires { IsTrue (fits kernel.now.boot who call.now) }
    ensures needed { result ≡ needed_number kernel.now.boot (reverse kernel.now.history) who call.now }
    ensures declared { IsDeclared kernel.now.boot result }
{
    match kernel.need(who, call) {
        Need::Bytes(o) => Some(o.get()),
        Need::Nothing => None,
    }
}

/// Prepares the body for the call: a Write in range can write it then without memory.
pub fn prepare(boot: &Boot, call: &Call, body: &mut Body) -> Result<(), NoMemory>
    ensures bytes { body.new.bytes ≡ body.old.bytes }
    ensures prepared { OnOk result (IsPreparedFor boot.now call.now body.new) }
{
    match call {
        Call::Write { obj, off, bytes } => {
            let len = bytes.as_slice().len() as u32;
            if bad_range(boot, *obj, *off, len) {
                return Ok(());
            }
            body.prepare(*off, len)
        }
        _ => Ok(()),
    }
}

/// No bytes.
pub fn no_bytes() -> ByteLine
    ensures { result ≡ [] }
{
    match ByteLine::from_slice(&[]) {
        Some(line) => line,
        None => unreachable!(),
    }
}

/// What a Read in range sees in the body, and no bytes for any other call.
pub fn look(boot: &Boot, call: &Call, body: &Body) -> ByteLine
    ensures seen { IsSeenOf boot.now call.now body.now.bytes result }
    ensures nothing { reads_in_range boot.now call.now ≡ false → result ≡ [] }
{
    match call {
        Call::Read { obj, off, len } => {
            if bad_range(boot, *obj, *off, *len) {
                return no_bytes();
            }
            body.read(*off, *len)
        }
        _ => no_bytes(),
    }
}

/// Changes the body as the call does that got this reply. Takes no memory.
pub fn apply(boot: &Boot, call: &Call, reply: &Reply, body: &mut Body)
    requires prepared { IsPreparedFor boot.now call.now body.old }
    requires range { IsWriteInRange boot.now call.now reply.now }
    ensures { body.new.bytes ≡ bytes_left call.now reply.now body.old.bytes }
{
    match call {
        Call::Map { .. } => {
            if !matches!(reply, Reply::Refused(_)) {
                body.clear();
            }
        }
        Call::Write { off, bytes, .. } => {
            if !matches!(reply, Reply::Refused(_)) {
                body.write(*off, bytes.as_slice());
            }
        }
        Call::SetState { word, .. } => {
            if asks_empty(*word) && wasnt_empty(reply) {
                body.clear();
            }
        }
        _ => {
            if let Reply::Purged(_) = reply {
                body.clear();
            }
        }
    }
}

fn asks_empty(word: u32) -> bool
    ensures { result ≡ option_map_or is_ask_empty (decoded word) false }
{
    matches!(decode_word(word), Some(Wish::Empty))
}

fn wasnt_empty(reply: &Reply) -> bool
    ensures { result ≡ wasnt_empty reply.now }
{
    matches!(reply, Reply::Old(State::Nonvolatile | State::Volatile))
}
