//! An input in pieces.

ghost use Rattle.std.specs.Prelude.{◌≡◌, ◌≤◌, ◌<◌, ◌^◌, length, take, IfOk, IfErr};
ghost use Rattle.std.specs.Io.KnownBytes.{Consumes, IsAtEnd};
ghost use Rattle.commands.specs.Stops.{Stops};

use edge::ends::Source;
use edge::reading::{InputFault, read_some};

/// Reads the next bytes of an input that may have `room` bytes more: as many as the answer says, from the front of
/// the piece on, and none exactly at the end. `Over` where there are more bytes than that, of which it took one.
pub fn next_piece<S: Source>(
    source: &mut S,
    piece: &mut [u8],
    room: usize,
) -> Result<usize, InputFault>
    requires some { 0 < length piece.old }
    requires few { room < 2 ^ 31 }
    ensures bound { IfOk result (λ n. n ≤ length piece.new) }
    ensures within { IfOk result (λ n. n ≤ room) }
    ensures bytes { IfOk result (λ n. Consumes (S.left source.old) (S.left source.new) (take n piece.new)) }
    ensures end { IfOk result (λ n. n ≡ 0 → IsAtEnd (S.left source.new)) }
    ensures stops { IfErr result (λ e. Stops e (S.left source.old) (S.left source.new) (S.fault_count source.old) (S.fault_count source.new) room) }
    ensures grows { S.fault_count source.old ≤ S.fault_count source.new }
{
    let most = room.min(piece.len() - 1) + 1;
    match read_some(source, piece, most) {
        Ok(n) => {
            if n > room {
                return Err(InputFault::Over);
            }
            Ok(n)
        }
        Err(_) => Err(InputFault::Failed),
    }
}
