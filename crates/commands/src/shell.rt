//! What every command ends with: its answer is written.

ghost use Rattle.std.specs.Prelude.{◌≡◌, ◌≢◌, ◌≤◌, ◌⊎◌};
ghost use Rattle.std.specs.Io.KnownBytes.{Appends, Keeps};
ghost use Rattle.edge.specs.Ends.{Rose, AppendsFront};
ghost use Rattle.commands.specs.Answers.{due_of};

use crate::answer::Answer;
use edge::ends::{Failed, Sink};
use edge::writing::WriteBuffer;
use kern_ids::entries::NoMemory;
use std::alloc::Global;

/// Takes the memory that writing needs, and writes the answer. The result is the exit status: that of the answer; 5
/// where a write failed; 9 where there was not enough memory, and then nothing was written.
pub fn write_answer<K: Sink>(alloc: Global, answer: &Answer, sink: &mut K) -> u8
    ensures written { result ≢ 5 → result ≢ 9 → (result ≡ (due_of answer.now).0) × Appends (K.held sink.old) (K.held sink.new) (due_of answer.now).1 }
    ensures front { result ≡ 5 → Rose (K.fault_count sink.old) (K.fault_count sink.new) × AppendsFront (K.held sink.old) (K.held sink.new) (due_of answer.now).1 }
    ensures memory { result ≡ 9 → Keeps (K.held sink.old) (K.held sink.new) }
    ensures status { (result ≡ (due_of answer.now).0) ⊎ ((result ≡ 5) ⊎ (result ≡ 9)) }
    ensures grows { K.fault_count sink.old ≤ K.fault_count sink.new }
{
    let buffer = match WriteBuffer::new(alloc) {
        Ok(buffer) => buffer,
        Err(NoMemory) => return 9,
    };
    match answer.write(sink, buffer) {
        Ok(()) => answer.status(),
        Err(Failed) => 5,
    }
}
