//! The bytes of an object.

ghost use Rattle.std.specs.Prelude.{◌≡◌, ◌≤◌, ◌+◌, reverse, map};
ghost use Rattle.std.specs.List.{range_with_len};
ghost use Rattle.kernel_model.specs.Contents as contents;

use crate::states::{empties_from, next_state};
use kern_ids::calls::State;
use kern_ids::entries::Entry;
use kern_ids::ids::ObjId;
use kern_ids::lines::ByteLine;
use kernel_model::events::written_byte;

/// Byte b of o after one entry more, where o was in this state before.
#[tactic(auto, unfolding(kernel_model::specs::Contents::next_byte))]
fn next_byte(state: State, o: ObjId, b: u32, was: u8, e: &Entry) -> u8
    ensures { result ≡ contents.next_byte state o b was e.now }
{
    if empties_from(state, o, e) {
        0
    } else {
        match written_byte(o, b, e) {
            Some(written) => written,
            None => was,
        }
    }
}

/// Byte b of o after these entries.
#[tactic(auto, using(crate::proofs::Loops::state_loop, crate::proofs::Loops::state_none, crate::proofs::Loops::byte_loop, crate::proofs::Loops::byte_none))]
pub fn byte(entries: &[Entry], o: ObjId, b: u32) -> u8
    ensures { result ≡ contents.byte (reverse entries.now) o b }
{
    let mut state = State::Nonvolatile;
    let mut byte = 0;
    for e in entries {
        byte = next_byte(state, o, b, byte, e);
        state = next_state(o, state, e);
    }
    byte
}

/// The bytes of a range.
pub fn bytes(entries: &[Entry], o: ObjId, off: u32, len: u32) -> ByteLine
    requires few { len ≤ 256 }
    requires fits { off + len ≤ 1048576 }
    ensures { result ≡ map (contents.byte (reverse entries.now) o) (range_with_len off len) }
{
    let mut held = [0; 256];
    for i in 0..len {
        held[i as usize] = byte(entries, o, off + i);
    }
    match ByteLine::from_slice(&held[..len as usize]) {
        Some(line) => line,
        None => unreachable!(),
    }
}
