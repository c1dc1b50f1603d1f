//! A call as a script keeps it: in about 50 bytes, and as many more as it writes. A `Call` has room for 256 in place.

ghost use Rattle.std.specs.Prelude.{◌≡◌, ◌≤◌, length, IfOk};
ghost use Rattle.kernel_model.specs.ScriptCalls.{call_of, written};

use crate::call_head::CallHead;
use kern_ids::calls::Call;
use kern_ids::entries::NoMemory;
use kern_ids::lines::ByteLine;
use std::alloc::Global;
use std::marker::Model;

/// A call of a script. Seen as the call.
#[derive(Drop)]
pub struct ScriptCall {
    head: CallHead,
    bytes: Vec<u8>,
}

impl Model for ScriptCall {
    ghost use Rattle.std.specs.Prelude.{◌≤◌, length};
    ghost use Rattle.kern_ids.specs.declared.calls.Call.{Call};
    ghost use Rattle.kernel_model.specs.ScriptCalls.{call_of};

    ghost Value = { Call };

    ghost view = { λ c. call_of c.head c.bytes.items };

    ghost invariant = { λ c. length c.bytes.items ≤ 256 };
}

// The call without its bytes.
fn head_of(call: &Call) -> CallHead
    ensures { call_of result (written call.now) ≡ call.now }
{
    match call {
        Call::Map { obj } => CallHead::Map { obj: *obj },
        Call::Unmap { obj } => CallHead::Unmap { obj: *obj },
        Call::Write { obj, off, .. } => CallHead::Write {
            obj: *obj,
            off: *off,
        },
        Call::Read { obj, off, len } => CallHead::Read {
            obj: *obj,
            off: *off,
            len: *len,
        },
        Call::SetState { obj, word } => CallHead::SetState {
            obj: *obj,
            word: *word,
        },
        Call::GetState { obj } => CallHead::GetState { obj: *obj },
        Call::Active { on } => CallHead::Active { on: *on },
        Call::Ledger => CallHead::Ledger,
        Call::Exit => CallHead::Exit,
        Call::PurgeOne => CallHead::PurgeOne,
        Call::Forced => CallHead::Forced,
        Call::Scan => CallHead::Scan,
        Call::Tick => CallHead::Tick,
        Call::Jetsam => CallHead::Jetsam,
        Call::SetBand { task, band } => CallHead::SetBand {
            task: *task,
            band: *band,
        },
        Call::SetLimits {
            task,
            active,
            inactive,
        } => CallHead::SetLimits {
            task: *task,
            active: *active,
            inactive: *inactive,
        },
        Call::Info => CallHead::Info,
        Call::Purgeables => CallHead::Purgeables,
        Call::Attach { obj } => CallHead::Attach { obj: *obj },
    }
}

// The bytes that a call writes.
fn bytes_of(alloc: Global, call: &Call) -> Result<Vec<u8>, NoMemory>
    ensures value { IfOk result (λ bytes. bytes.items ≡ written call.now) }
    ensures few { IfOk result (λ bytes. length bytes.items ≤ 256) }
{
    match call {
        Call::Write { bytes, .. } => bytes.as_slice().to_vec(alloc).map_err(|_| NoMemory),
        _ => Ok(Vec::new(alloc)),
    }
}

impl ScriptCall {
    // Keeps a call. Takes memory for the bytes of a Write alone.
    pub(crate) fn new(alloc: Global, call: &Call) -> Result<ScriptCall, NoMemory>
        ensures { IfOk result (λ kept. kept ≡ call.now) }
    {
        let bytes = bytes_of(alloc, call)?;
        Ok(ScriptCall {
            head: head_of(call),
            bytes,
        })
    }

    /// The call.
    pub fn get(&self) -> Call
        ensures { result ≡ self.now }
    {
        match self.head {
            CallHead::Map { obj } => Call::Map { obj },
            CallHead::Unmap { obj } => Call::Unmap { obj },
            CallHead::Write { obj, off } => match ByteLine::from_slice(&self.bytes) {
                Some(bytes) => Call::Write { obj, off, bytes },
                None => unreachable!(),
            },
            CallHead::Read { obj, off, len } => Call::Read { obj, off, len },
            CallHead::SetState { obj, word } => Call::SetState { obj, word },
            CallHead::GetState { obj } => Call::GetState { obj },
            CallHead::Active { on } => Call::Active { on },
            CallHead::Ledger => Call::Ledger,
            CallHead::Exit => Call::Exit,
            CallHead::PurgeOne => Call::PurgeOne,
            CallHead::Forced => Call::Forced,
            CallHead::Scan => Call::Scan,
            CallHead::Tick => Call::Tick,
            CallHead::Jetsam => Call::Jetsam,
            CallHead::SetBand { task, band } => Call::SetBand { task, band },
            CallHead::SetLimits {
                task,
                active,
                inactive,
            } => Call::SetLimits {
                task,
                active,
                inactive,
            },
            CallHead::Info => Call::Info,
            CallHead::Purgeables => Call::Purgeables,
            CallHead::Attach { obj } => Call::Attach { obj },
        }
    }
}
