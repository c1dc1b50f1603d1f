//! An input that is checked as it is read.

ghost use Rattle.std.specs.Prelude.{◌≡◌, ◌≤◌, ◌<◌, ◌+◌, ◌^◌, length, IfOk, IfErr, IsErrOf};
ghost use Rattle.edge.specs.Ends.{Rose, IsOver, TakesFront};
ghost use Rattle.replay_check.specs.Pieces.{HasRoom};
ghost use Rattle.commands.specs.Stops.{Stops};
ghost use Rattle.commands.specs.Checks.{IsChecked, IsEnded};

use crate::begun::{Begun, begin};
use crate::pieces::next_piece;
use edge::ends::Source;
use edge::reading::{InputFault, piece_room};
use replay_check::{PieceCheck, PieceEnd};
use std::alloc::Global;

// Feeds the rest of an input to a check, a piece at a time. The rest may have `most` bytes.
fn feed_rest<S: Source>(
    source: &mut S,
    piece: &mut [u8],
    begun: PieceCheck,
    most: usize,
) -> Result<PieceEnd, InputFault>
    requires some { 0 < length piece.old }
    requires few { most < 2 ^ 31 }
    requires room { HasRoom begun most }
    ensures ended { IfOk result (λ end. IsEnded begun end (S.left source.old) (S.left source.new) most) }
    ensures stops { IfErr result (λ e. Stops e (S.left source.old) (S.left source.new) (S.fault_count source.old) (S.fault_count source.new) most) }
    ensures grows { S.fault_count source.old ≤ S.fault_count source.new }
{
    let mut check = begun;
    let mut room = most;
    'pieces: loop {
        let n = next_piece(source, piece, room)?;
        if n == 0 {
            return Ok(check.finish());
        }
        check = check.feed(&piece[..n])?;
        room -= n;
    }
}

// Reads an input of at most `limit` bytes to its end, and checks it.
fn check_pieces<S: Source>(
    alloc: Global,
    source: &mut S,
    limit: usize,
) -> Result<PieceEnd, InputFault>
    requires { limit < 2 ^ 31 }
    ensures checked { IfOk result (λ end. IsChecked (S.left source.old) (S.left source.new) limit end) }
    ensures stops { IfErr result (λ e. Stops e (S.left source.old) (S.left source.new) (S.fault_count source.old) (S.fault_count source.new) limit) }
    ensures grows { S.fault_count source.old ≤ S.fault_count source.new }
{
    let mut piece = piece_room(alloc)?;
    match begin(alloc, source, &mut piece, limit)? {
        Begun::Checks { check, room } => feed_rest(source, &mut piece, check, room),
        Begun::Bad { line, why } => Ok(PieceEnd::Bad { line, why }),
    }
}

/// Reads an input of at most `limit` bytes to its end, the first fault of the source, or the first byte past
/// the limit, whatever the bytes are: the verdict on the history after the scenario, or the first fault of
/// the text. It holds one piece of the text, and until the scenario is read what was read so far.
pub fn check_source<S: Source>(
    alloc: Global,
    source: &mut S,
    limit: usize,
) -> Result<PieceEnd, InputFault>
    requires { limit < 2 ^ 31 }
    ensures checked { IfOk result (λ end. IsChecked (S.left source.old) (S.left source.new) limit end) }
    ensures over { IsErrOf result InputFault.Over → IsOver (S.left source.old) (S.left source.new) limit }
    ensures cause { IsErrOf result InputFault.Failed → Rose (S.fault_count source.old) (S.fault_count source.new) }

    // In every case.
    ensures taken { TakesFront (S.left source.old) (S.left source.new) (limit + 1) }
    ensures grows { S.fault_count source.old ≤ S.fault_count source.new }
{
    check_pieces(alloc, source, limit)
}
