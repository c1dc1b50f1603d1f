//! The call that the program makes.

ghost use Rattle.std.specs.Prelude.{◌≡◌, ◌≢◌, ◌≤◌, true, false};
ghost use Rattle.commands.specs.Top.{asks_run, IsRunResult, IsSerialResult, WritesHistory};

use crate::run::run_command;
use crate::serial_top;
use edge::ends::{Sink, Source};
use edge::words::Words;
use kernel_shared::gate::Gate;
use line_text::is_word;
use std::alloc::Global;
use std::sync::Wait;
use std::thread::Threads;

// The words ask for a run with threads.
fn asks_run(words: &Words) -> bool
    ensures { result ≡ asks_run words.now }
{
    if words.len() != 1 {
        return false;
    }
    match words.get(0) {
        Some(word) => is_word(word, b"run"),
        None => false,
    }
}

/// Performs the command that the words ask for, and answers the exit status. `run` reads a scenario, runs it
/// with a thread a script, and writes the scenario and the history of the run. Every other list of words is
/// handed to `serial_top`, whose promises hold of it. A run may wait; the others do not.
pub fn jetlab_top<R: Threads + Wait + Sync, S: Source, K: Sink, G: Gate + Sync>(
    rt: &R,
    alloc: Global,
    words: &Words,
    source: &mut S,
    sink: &mut K,
    gate: &G,
) -> u8
    // Where `run` ends with status 0, what it wrote is the scenario that the source had left and one legal
    // history of it, in which the calls of each thread are its script.
    ensures headline { asks_run words.now ≡ true → result ≡ 0 → WritesHistory (S.left source.old) (K.held sink.old) (K.held sink.new) }

    // Each status of `run` by its cause.
    ensures run { asks_run words.now ≡ true → IsRunResult (S.left source.old) (S.left source.new) (S.fault_count source.old) (S.fault_count source.new) (K.held sink.old) (K.held sink.new) (K.fault_count sink.old) (K.fault_count sink.new) result }

    // And of every other command.
    ensures others { asks_run words.now ≡ false → IsSerialResult words.now (S.left source.old) (S.left source.new) (S.fault_count source.old) (S.fault_count source.new) (K.held sink.old) (K.held sink.new) (K.fault_count sink.old) (K.fault_count sink.new) result }
{
    if asks_run(words) {
        run_command(rt, alloc, source, sink, gate)
    } else {
        serial_top(alloc, words, source, sink)
    }
}
