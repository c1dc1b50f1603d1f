//! A whole text in pieces.

ghost use Rattle.std.specs.Prelude.{◌≡◌, ◌<◌, ◌≤◌, ◌^◌, length, IfOk};
ghost use Rattle.history_text.specs.HistoryReading.{history_of};
ghost use Rattle.replay_check.specs.Pieces.{end_of};

use kern_ids::entries::NoMemory;
use kernel_model::scenario::Scenario;
use replay_check::{PieceCheck, PieceEnd};
use std::alloc::Global;

// Where the piece ends in which this byte is: there is a cut at one place, and one at each multiple of the size.
fn piece_end(at: usize, cut: usize, size: usize, len: usize) -> usize
    requires inside { at < len }
    requires few { len < 2 ^ 31 }
    requires some { 0 < size }
    requires small { size < 2 ^ 31 }
    ensures after { at < result }
    ensures within { result ≤ len }
{
    if at < cut && cut <= len {
        return cut;
    }
    len.min(at - at % size + size)
}

/// How the check of a history in pieces ends: exactly as that of its whole text. There is a cut at one place, and one
/// at each multiple of the size.
pub fn in_pieces(
    alloc: Global,
    scenario: Scenario,
    first_line: u32,
    text: &[u8],
    cut: usize,
    size: usize,
) -> Result<PieceEnd, NoMemory>
    requires first { first_line ≤ 2 ^ 31 }
    requires few { length text.now < 2 ^ 31 }
    requires some { 0 < size }
    requires small { size < 2 ^ 31 }
    ensures { IfOk result (λ end. end ≡ end_of scenario (history_of first_line text.now)) }
{
    let mut check = PieceCheck::new(alloc, scenario, first_line)?;
    let mut at = 0;
    'bytes: while at < text.len() {
        let end = piece_end(at, cut, size, text.len());
        check = check.feed(&text[at..end])?;
        at = end;
    }
    Ok(check.finish())
}
