//! What is to be answered: the words, the input and the run.

ghost use Rattle.std.specs.Prelude.{◌≡◌, ◌≤◌, ◌<◌, ◌^◌, false, length, IfOk};
ghost use Rattle.std.specs.Io.KnownBytes.{Keeps};
ghost use Rattle.scenario_text.specs.Grammar.{scenario_of};
ghost use Rattle.commands.specs.Commands.{asks_reading};
ghost use Rattle.commands.specs.declared.command.Reading.TheVariants.{Judge};
ghost use Rattle.report_tables.specs.declared.report.Judging.TheVariants.{Check};
ghost use Rattle.report_tables.specs.Reports.{report_of};
ghost use Rattle.commands.specs.Outcome.{answered, made_outcome, read_outcome, reported, told_of_end};
ghost use Rattle.commands.specs.Answers.{due_of};
ghost use Rattle.commands.specs.Calls.{IsReadDue, IsDue};

use crate::answer::Answer;
use crate::check_source;
use crate::command::{Command, Making, Reading, Rewriting, command_of};
use edge::ends::Source;
use edge::reading::{InputFault, read_to_limit};
use edge::words::Words;
use kern_ids::entries::NoMemory;
use kern_ids::faults::ReadFault;
use replay_check::PieceEnd;
use report_tables::{Judging, tell, verdict_report};
use scenario_maker::make_scenario;
use scenario_text::read_scenario;
use std::alloc::Global;
use thread_runner::serial::run_serial;

// What is answered where the input is to be a scenario.
fn answer_scenario(alloc: Global, rewriting: Rewriting, input: &[u8]) -> Result<Answer, NoMemory>
    requires { length input.now < 2 ^ 31 }
    ensures { IfOk result (λ a. due_of a ≡ answered rewriting (scenario_of input.now)) }
{
    let scenario = match read_scenario(alloc, input) {
        Ok(scenario) => scenario,
        Err(ReadFault::Bad { line, why }) => return Ok(Answer::BadLine(line, why)),
        Err(ReadFault::NoMemory) => return Err(NoMemory),
    };
    match rewriting {
        Rewriting::Serial => {
            let history = run_serial(alloc, &scenario)?;
            Ok(Answer::Run(scenario, history))
        }
        Rewriting::Migrate => Ok(Answer::Rewritten(scenario.into_two())),
    }
}

// What is answered where the input is to be a scenario with a history.
fn answer_history(alloc: Global, judging: Judging, input: &[u8]) -> Result<Answer, NoMemory>
    requires { length input.now < 2 ^ 31 }
    ensures { IfOk result (λ a. due_of a ≡ reported (report_of judging input.now)) }
{
    match tell(alloc, judging, input) {
        Ok(report) => Ok(Answer::Reported(report)),
        Err(ReadFault::Bad { line, why }) => Ok(Answer::BadLine(line, why)),
        Err(ReadFault::NoMemory) => Err(NoMemory),
    }
}

// What is answered where the input was read whole.
fn answer_input(alloc: Global, reading: Reading, input: &[u8]) -> Result<Answer, NoMemory>
    requires { length input.now < 2 ^ 31 }
    ensures { IfOk result (λ a. due_of a ≡ read_outcome reading input.now) }
{
    match reading {
        Reading::Rewrite(rewriting) => answer_scenario(alloc, rewriting, input),
        Reading::Judge(judging) => answer_history(alloc, judging, input),
    }
}

// What is answered on an input that is held whole.
fn answer_whole<S: Source>(
    alloc: Global,
    reading: Reading,
    source: &mut S,
) -> Result<Answer, NoMemory>
    ensures due { IfOk result (λ a. IsReadDue reading (S.left source.old) (S.left source.new) (S.fault_count source.old) (S.fault_count source.new) (due_of a)) }
    ensures grows { S.fault_count source.old ≤ S.fault_count source.new }
{
    let limit = reading.limit();
    match read_to_limit(alloc, source, limit) {
        Ok(input) => answer_input(alloc, reading, &input),
        Err(InputFault::Over) => Ok(Answer::TooLong(limit)),
        Err(InputFault::Failed) => Ok(Answer::ReadFault),
        Err(InputFault::NoMemory) => Err(NoMemory),
    }
}

// What is answered on the end of a check.
fn answer_end(alloc: Global, end: PieceEnd) -> Result<Answer, NoMemory>
    ensures { IfOk result (λ a. due_of a ≡ reported (told_of_end end)) }
{
    match end {
        PieceEnd::Done(verdict) => {
            let report = verdict_report(alloc, &verdict)?;
            Ok(Answer::Reported(report))
        }
        PieceEnd::Bad { line, why } => Ok(Answer::BadLine(line, why)),
    }
}

// What is answered on an input that is checked as it is read.
fn answer_checked<S: Source>(alloc: Global, source: &mut S) -> Result<Answer, NoMemory>
    ensures due { IfOk result (λ a. IsReadDue (Judge Check) (S.left source.old) (S.left source.new) (S.fault_count source.old) (S.fault_count source.new) (due_of a)) }
    ensures grows { S.fault_count source.old ≤ S.fault_count source.new }
{
    let limit = Reading::Judge(Judging::Check).limit();
    match check_source(alloc, source, limit) {
        Ok(end) => answer_end(alloc, end),
        Err(InputFault::Over) => Ok(Answer::TooLong(limit)),
        Err(InputFault::Failed) => Ok(Answer::ReadFault),
        Err(InputFault::NoMemory) => Err(NoMemory),
    }
}

// What is answered on the input.
fn answer_read<S: Source>(
    alloc: Global,
    reading: Reading,
    source: &mut S,
) -> Result<Answer, NoMemory>
    ensures due { IfOk result (λ a. IsReadDue reading (S.left source.old) (S.left source.new) (S.fault_count source.old) (S.fault_count source.new) (due_of a)) }
    ensures grows { S.fault_count source.old ≤ S.fault_count source.new }
{
    match reading {
        Reading::Judge(Judging::Check) => answer_checked(alloc, source),
        _ => answer_whole(alloc, reading, source),
    }
}

// What is answered of the scenario of a seed and n turns.
fn answer_made(alloc: Global, making: Making, seed: u32, n: u32) -> Result<Answer, NoMemory>
    requires seed { seed < 2 ^ 31 }
    requires turns { n ≤ 200000 }
    ensures { IfOk result (λ a. due_of a ≡ made_outcome making seed n) }
{
    let scenario = make_scenario(alloc, seed, n)?;
    match making {
        Making::Text => Ok(Answer::Rewritten(scenario)),
        Making::Trial => {
            let history = run_serial(alloc, &scenario)?;
            Ok(Answer::Counted(history))
        }
    }
}

/// What is to be answered. Where the words do not ask for reading the source is not called.
pub fn decide<S: Source>(alloc: Global, words: &Words, source: &mut S) -> Result<Answer, NoMemory>
    ensures due { IfOk result (λ a. IsDue words.now (S.left source.old) (S.left source.new) (S.fault_count source.old) (S.fault_count source.new) (due_of a)) }
    ensures unread { asks_reading words.now ≡ false → Keeps (S.left source.old) (S.left source.new) × (S.fault_count source.new ≡ S.fault_count source.old) }
    ensures grows { S.fault_count source.old ≤ S.fault_count source.new }
{
    match command_of(words) {
        Some(Command::Read(reading)) => answer_read(alloc, reading, source),
        Some(Command::Make { making, seed, n }) => answer_made(alloc, making, seed, n),
        None => Ok(Answer::BadWords),
    }
}
