//! The scenario at the front of an input.

ghost use Rattle.std.specs.Prelude.{◌≡◌, ◌≤◌, ◌<◌, ◌++◌, ◌^◌, [], length, IfOk, IfErr, IfSome, OnOk};
ghost use Rattle.memchr.specs.Find.{FindsNeedle};
ghost use Rattle.commands.specs.Openings.{IsOpened, IsSkipped, ReadsPast, Says, Stays, end_line, last_bytes};
ghost use Rattle.commands.specs.Stops.{Stops};

use crate::pieces::next_piece;
use edge::ends::Source;
use edge::reading::InputFault;
use kern_ids::entries::NoMemory;
use kern_ids::faults::{ReadFault, Why};
use kernel_model::scenario::Scenario;
use memchr::memmem;
use scenario_text::read_front;
use std::alloc::Global;

/// The last line of a scenario, after another one.
const END: &[u8] = b"\nend\n";

/// How many times as many bytes there have to be before they are looked at again without that line.
const MORE: usize = 64;

/// What an input begins with.
#[derive(Drop)]
pub enum Opening {
    /// A scenario, whose text has so many bytes and lines.
    Scenario {
        scenario: Scenario,
        taken: usize,
        lines: u32,
    },
    /// No scenario: the line of the first fault, and why it is refused.
    Bad {
        line: u32,
        why: Why,
    },
}

// What the bytes begin with.
fn front(alloc: Global, bytes: &[u8]) -> Result<Opening, NoMemory>
    requires { length bytes.now < 2 ^ 31 }
    ensures { IfOk result (λ opening. Says opening bytes.now) }
{
    match read_front(alloc, bytes) {
        Ok(front) => Ok(Opening::Scenario {
            scenario: front.0,
            taken: front.1,
            lines: front.2,
        }),
        Err(ReadFault::Bad { line, why }) => Ok(Opening::Bad { line, why }),
        Err(ReadFault::NoMemory) => Err(NoMemory),
    }
}

// The same, where more bytes don't change it.
fn settled(opening: Opening) -> Option<Opening>
    ensures { IfSome result (λ o. (o ≡ opening) × Stays o) }
{
    match opening {
        Opening::Scenario { .. } => Some(opening),
        Opening::Bad { why, .. } => match why {
            Why::NoEnd => None,
            _ => Some(opening),
        },
    }
}

// Where a line that can end a scenario begins among the last `count` bytes and the four before them, if one does.
fn find_end(bytes: &[u8], count: usize) -> Option<usize>
    requires { count ≤ length bytes.now }
    ensures { FindsNeedle (last_bytes count bytes.now) end_line 0 result }
{
    let before = (bytes.len() - count).saturating_sub(4);
    memmem::find(&bytes[before..], END)
}

// What the bytes begin with, where more bytes don't change it. They are looked at only where there are as
// many as wanted, or the last `count` of them may end a scenario.
fn open(
    alloc: Global,
    bytes: &[u8],
    count: usize,
    wanted: usize,
) -> Result<Option<Opening>, NoMemory>
    requires few { length bytes.now < 2 ^ 31 }
    requires last { count ≤ length bytes.now }
    ensures { IfOk result (λ found. IfSome found (λ opening. Says opening bytes.now × Stays opening)) }
{
    if bytes.len() < wanted && find_end(bytes, count).is_none() {
        return Ok(None);
    }
    let opening = front(alloc, bytes)?;
    Ok(settled(opening))
}

fn gather(bytes: &mut Vec<u8>, piece: &[u8]) -> Result<(), NoMemory>
    ensures { OnOk result (bytes.new.items ≡ bytes.old.items ++ piece.now) }
{
    bytes.extend_from_slice(piece).map_err(|_| NoMemory)
}

// Reads all that is left, at most `most` bytes.
fn skip_rest<S: Source>(source: &mut S, piece: &mut [u8], most: usize) -> Result<(), InputFault>
    requires some { 0 < length piece.old }
    requires few { most < 2 ^ 31 }
    ensures skipped { OnOk result (IsSkipped (S.left source.old) (S.left source.new) most) }
    ensures stops { IfErr result (λ e. Stops e (S.left source.old) (S.left source.new) (S.fault_count source.old) (S.fault_count source.new) most) }
    ensures grows { S.fault_count source.old ≤ S.fault_count source.new }
{
    let mut room = most;
    'pieces: loop {
        let n = next_piece(source, piece, room)?;
        if n == 0 {
            return Ok(());
        }
        room -= n;
    }
}

// Behind a fault all that is left is read.
fn read_past<S: Source>(
    source: &mut S,
    piece: &mut [u8],
    opening: Opening,
    room: usize,
) -> Result<Opening, InputFault>
    requires some { 0 < length piece.old }
    requires few { room < 2 ^ 31 }
    ensures past { IfOk result (λ o. (o ≡ opening) × ReadsPast o (S.left source.old) (S.left source.new) room) }
    ensures stops { IfErr result (λ e. Stops e (S.left source.old) (S.left source.new) (S.fault_count source.old) (S.fault_count source.new) room) }
    ensures grows { S.fault_count source.old ≤ S.fault_count source.new }
{
    match opening {
        Opening::Scenario { .. } => Ok(opening),
        Opening::Bad { .. } => {
            skip_rest(source, piece, room)?;
            Ok(opening)
        }
    }
}

/// Reads an input of at most `limit` bytes, a piece at a time: until its bytes begin with a scenario, which
/// are then gathered, or else to its end. The bytes are looked at where a line comes that can end a scenario,
/// and each time that there are 64 times as many; they are gathered no more once a line is refused.
pub fn read_opening<S: Source>(
    alloc: Global,
    source: &mut S,
    piece: &mut [u8],
    bytes: &mut Vec<u8>,
    limit: usize,
) -> Result<Opening, InputFault>
    requires empty { bytes.old.items ≡ [] }
    requires some { 0 < length piece.old }
    requires few { limit < 2 ^ 31 }
    ensures opened { IfOk result (λ opening. IsOpened opening bytes.new.items (S.left source.old) (S.left source.new) limit) }
    ensures stops { IfErr result (λ e. Stops e (S.left source.old) (S.left source.new) (S.fault_count source.old) (S.fault_count source.new) limit) }
    ensures grows { S.fault_count source.old ≤ S.fault_count source.new }
{
    let mut wanted = 1;
    'pieces: loop {
        let n = next_piece(source, piece, limit - bytes.len())?;
        if n == 0 {
            return Ok(front(alloc, bytes)?);
        }
        gather(bytes, &piece[..n])?;
        match open(alloc, bytes, n, wanted)? {
            Some(opening) => return read_past(source, piece, opening, limit - bytes.len()),
            None => (),
        }
        if wanted <= bytes.len() {
            wanted = bytes.len().saturating_mul(MORE);
        }
    }
}
