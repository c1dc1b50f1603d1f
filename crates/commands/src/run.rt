//! What `run` answers.

ghost use Rattle.std.specs.Prelude.{◌≡◌, ◌≢◌, ◌≤◌, ◌<◌, ◌⊎◌, ◌∷◌, ◌^◌, [], length, IfOk, Contains};
ghost use Rattle.std.specs.Io.KnownBytes.{Appends, Keeps};
ghost use Rattle.edge.specs.Ends.{Rose};
ghost use Rattle.scenario_text.specs.Grammar.{scenario_of};
ghost use Rattle.commands.specs.Messages.{read_fault};
ghost use Rattle.commands.specs.Answers.{due_of};
ghost use Rattle.commands.specs.RunOutcome.{IsRunAnswer, run_limit};
ghost use Rattle.commands.specs.RunCalls.{IsRunDue, WritesRun, WritesFront, IsAccepted};

use crate::answer::Answer;
use crate::shell::write_answer;
use edge::ends::{Sink, Source};
use edge::reading::{InputFault, read_to_limit};
use kern_ids::entries::NoMemory;
use kern_ids::faults::ReadFault;
use kernel_shared::gate::Gate;
use scenario_text::read_scenario;
use std::alloc::Global;
use std::sync::Wait;
use std::thread::Threads;
use thread_runner::run_threads;

// What is answered where the input was read whole.
fn answer_input<R: Threads + Wait + Sync, G: Gate + Sync>(
    rt: &R,
    alloc: Global,
    gate: &G,
    input: &[u8],
) -> Result<Answer, NoMemory>
    requires { length input.now < 2 ^ 31 }
    ensures { IfOk result (λ a. IsRunAnswer (scenario_of input.now) (due_of a)) }
{
    let scenario = match read_scenario(alloc, input) {
        Ok(scenario) => scenario,
        Err(ReadFault::Bad { line, why }) => return Ok(Answer::BadLine(line, why)),
        Err(ReadFault::NoMemory) => return Err(NoMemory),
    };
    let history = run_threads(rt, alloc, gate, &scenario)?;
    Ok(Answer::Run(scenario, history))
}

/// The most bytes of input that `run` reads.
#[tactic(auto, unfolding(crate::specs::RunOutcome::run_limit))]
fn limit() -> usize
    ensures value { result ≡ run_limit }
    ensures small { result < 2 ^ 30 }
{
    67_108_864
}

// What is to be answered.
fn decide<R: Threads + Wait + Sync, S: Source, G: Gate + Sync>(
    rt: &R,
    alloc: Global,
    source: &mut S,
    gate: &G,
) -> Result<Answer, NoMemory>
    ensures due { IfOk result (λ a. IsRunDue (S.left source.old) (S.left source.new) (S.fault_count source.old) (S.fault_count source.new) (due_of a)) }
    ensures grows { S.fault_count source.old ≤ S.fault_count source.new }
{
    let limit = limit();
    match read_to_limit(alloc, source, limit) {
        Ok(input) => answer_input(rt, alloc, gate, &input),
        Err(InputFault::Over) => Ok(Answer::TooLong(limit)),
        Err(InputFault::Failed) => Ok(Answer::ReadFault),
        Err(InputFault::NoMemory) => Err(NoMemory),
    }
}

/// Reads a scenario from the source, runs it with a thread a script, and writes it and its history to the sink. The
/// result is the exit status.
pub fn run_command<R: Threads + Wait + Sync, S: Source, K: Sink, G: Gate + Sync>(
    rt: &R,
    alloc: Global,
    source: &mut S,
    sink: &mut K,
    gate: &G,
) -> u8
    ensures outcome { result ≢ 4 → result ≢ 5 → result ≢ 9 → WritesRun (S.left source.old) (S.left source.new) (K.held sink.old) (K.held sink.new) result }
    ensures read { result ≡ 4 → Rose (S.fault_count source.old) (S.fault_count source.new) × Appends (K.held sink.old) (K.held sink.new) read_fault }
    ensures write { result ≡ 5 → Rose (K.fault_count sink.old) (K.fault_count sink.new) × WritesFront (S.left source.old) (S.left source.new) (S.fault_count source.old) (S.fault_count source.new) (K.held sink.old) (K.held sink.new) }
    ensures memory { result ≡ 9 → Keeps (K.held sink.old) (K.held sink.new) }
    ensures statuses { Contains (0 ∷ 3 ∷ 4 ∷ 5 ∷ 7 ∷ 9 ∷ []) result }
    ensures complete { IsAccepted (S.left source.old) → ¬ Rose (S.fault_count source.old) (S.fault_count source.new) → ¬ Rose (K.fault_count sink.old) (K.fault_count sink.new) → (result ≡ 0) ⊎ (result ≡ 9) }
    ensures grows { (S.fault_count source.old ≤ S.fault_count source.new) × (K.fault_count sink.old ≤ K.fault_count sink.new) }
{
    let answer = match decide(rt, alloc, source, gate) {
        Ok(answer) => answer,
        Err(NoMemory) => return 9,
    };
    write_answer(alloc, &answer, sink)
}
