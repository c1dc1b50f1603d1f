//! The call that the program makes.

ghost use Rattle.std.specs.Prelude.{◌≡◌, ◌≢◌, ◌≤◌, ◌⊎◌, ◌∷◌, [], true, false, Contains};
ghost use Rattle.std.specs.Io.KnownBytes.{Appends, Keeps};
ghost use Rattle.edge.specs.Ends.{Rose};
ghost use Rattle.commands.specs.Commands.{asks_reading};
ghost use Rattle.commands.specs.Messages.{read_fault};
ghost use Rattle.commands.specs.Calls.{WritesOutcome, WritesFront, IsReadFault, IsAccepted};
ghost use Rattle.commands.specs.Top.{asks_serial, WritesSerial};

use crate::decide::decide;
use crate::shell::write_answer;
use edge::ends::{Sink, Source};
use edge::words::Words;
use kern_ids::entries::NoMemory;
use std::alloc::Global;

/// Performs the command that the words ask for: reads the source to its end, where the command reads, and
/// writes its output. The result is the exit status: 0 where the command was performed, 2 for bad words, 3
/// for bad input, 4 for a failed read, 5 for a failed write, 6 for a history that is not legal and whole, 7
/// for an input that is too long, 8 for the number of an entry that there is not, and 9 out of memory. All
/// memory is taken before the first byte is written.
pub fn serial_top<S: Source, K: Sink>(
    alloc: Global,
    words: &Words,
    source: &mut S,
    sink: &mut K,
) -> u8
    // Unless a read or a write failed or it is out of memory, the status is that of the outcome, and its
    // whole text was written.
    ensures outcome { result ≢ 4 → result ≢ 5 → result ≢ 9 → WritesOutcome words.now (S.left source.old) (S.left source.new) (K.held sink.old) (K.held sink.new) result }

    // What `serial` writes at 0 is the scenario that the source had left and its serial history, which is legal and whole.
    ensures serial { asks_serial words.now ≡ true → result ≡ 0 → WritesSerial (S.left source.old) (K.held sink.old) (K.held sink.new) }

    // A failed read: the source was to be read, its count rose, and the line that says so was written.
    ensures read { result ≡ 4 → IsReadFault words.now (S.fault_count source.old) (S.fault_count source.new) × Appends (K.held sink.old) (K.held sink.new) read_fault }

    // A failed write: the sink's count rose, and a front of the text to be written was written.
    ensures write { result ≡ 5 → Rose (K.fault_count sink.old) (K.fault_count sink.new) × WritesFront words.now (S.left source.old) (S.left source.new) (S.fault_count source.old) (S.fault_count source.new) (K.held sink.old) (K.held sink.new) }

    // Out of memory: nothing was written.
    ensures memory { result ≡ 9 → Keeps (K.held sink.old) (K.held sink.new) }

    // There is no other status.
    ensures statuses { Contains (0 ∷ 2 ∷ 3 ∷ 4 ∷ 5 ∷ 6 ∷ 7 ∷ 8 ∷ 9 ∷ []) result }

    // With bad words, and for a command that reads nothing, the source is as before.
    ensures unread { asks_reading words.now ≡ false → Keeps (S.left source.old) (S.left source.new) × (S.fault_count source.new ≡ S.fault_count source.old) }

    // A good input is answered by 0, or 9 out of memory, where no read and no write fails.
    ensures complete { IsAccepted words.now (S.left source.old) → ¬ Rose (S.fault_count source.old) (S.fault_count source.new) → ¬ Rose (K.fault_count sink.old) (K.fault_count sink.new) → (result ≡ 0) ⊎ (result ≡ 9) }

    // No count of faults falls.
    ensures grows { (S.fault_count source.old ≤ S.fault_count source.new) × (K.fault_count sink.old ≤ K.fault_count sink.new) }
{
    let answer = match decide(alloc, words, source) {
        Ok(answer) => answer,
        Err(NoMemory) => return 9,
    };
    write_answer(alloc, &answer, sink)
}
