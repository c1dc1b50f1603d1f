//! A check that is begun with the first bytes of an input.

ghost use Rattle.std.specs.Prelude.{◌≡◌, ◌≤◌, ◌<◌, ◌+◌, ◌^◌, ℕ, length, drop, vec_len, IfOk, IfErr};
ghost use Rattle.replay_check.specs.Pieces.{HasRoom, StandsFor};
ghost use Rattle.commands.specs.Stops.{Stops};
ghost use Rattle.commands.specs.Checks.{Begins};

use crate::opening::{Opening, read_opening};
use edge::ends::Source;
use edge::reading::InputFault;
use kern_ids::entries::NoMemory;
use kern_ids::faults::Why;
use kernel_model::scenario::Scenario;
use replay_check::PieceCheck;
use std::alloc::Global;

/// What the first bytes of an input come to.
#[derive(Drop)]
pub enum Begun {
    /// They begin with a scenario: the check of what comes after it, and how many bytes more the input may
    /// have.
    Checks { check: PieceCheck, room: usize },
    /// They are the whole input: the line of its first fault, and why it is refused.
    Bad { line: u32, why: Why },
}

// The check of a history whose first bytes are these, after so many lines.
fn check_of(
    alloc: Global,
    scenario: Scenario,
    lines: u32,
    bytes: &[u8],
) -> Result<PieceCheck, NoMemory>
    requires lines { lines + 1 ≤ 2 ^ 31 }
    requires few { length bytes.now < 2 ^ 31 }
    ensures stands { IfOk result (StandsFor scenario (lines + 1) bytes.now) }
    ensures room { IfOk result (λ check. (more : ℕ) → length bytes.now + more < 2 ^ 31 → HasRoom check more) }
{
    let check = PieceCheck::new(alloc, scenario, lines + 1)?;
    check.feed(bytes)
}

/// Reads an input of at most `limit` bytes until it begins with a scenario, and begins a check with the bytes
/// after it. None of the bytes that were read are kept.
pub fn begin<S: Source>(
    alloc: Global,
    source: &mut S,
    piece: &mut [u8],
    limit: usize,
) -> Result<Begun, InputFault>
    requires some { 0 < length piece.old }
    requires few { limit < 2 ^ 31 }
    ensures begun { IfOk result (λ begun. Begins begun (S.left source.old) (S.left source.new) limit) }
    ensures stops { IfErr result (λ e. Stops e (S.left source.old) (S.left source.new) (S.fault_count source.old) (S.fault_count source.new) limit) }
    ensures grows { S.fault_count source.old ≤ S.fault_count source.new }
{
    let mut bytes = Vec::new(alloc);
    match read_opening(alloc, source, piece, &mut bytes, limit)? {
        Opening::Scenario {
            scenario,
            taken,
            lines,
        } => {
            let check = check_of(alloc, scenario, lines, &bytes[taken..])?;
            Ok(Begun::Checks {
                check,
                room: limit - bytes.len(),
            })
        }
        Opening::Bad { line, why } => Ok(Begun::Bad { line, why }),
    }
}
