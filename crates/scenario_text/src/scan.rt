//! Reading a scenario line by line.

ghost use Rattle.std.specs.Prelude.{◌≡◌, ◌≢◌, ◌≤◌, ◌<◌, ◌∷◌, ◌+◌, ◌++◌, ◌^◌, [], ℕ, List, length, take, MatchResult, OnOk, IfOk, Ok, Err, is_some, slice_index_or};
ghost use Rattle.line_text.specs.Cut.{words_of, lines_of};
ghost use Rattle.kernel_model.specs.Scenario.{Plan};
ghost use Rattle.scenario_text.specs.Grammar.{headed, reading, head_line, system_line, is_ended, order_words, script_line, later_line, declaring_line, line_at, turn, last_thread, start, step, front_from, front_of, scenario_of};
ghost use Rattle.kernel_model.specs.Events.{task_of_side};
ghost use Rattle.kernel_model.specs.declared.boot.Side.TheVariants.{Kernel};
ghost use Rattle.scenario_text.specs.Text.{scenario_text, scenario_lines, HasText};
ghost use Rattle.scenario_text.specs.Fronts.{FrontGives, front_taken};
ghost use Rattle.scenario_text.specs.Gives.{StepGives, OrderGives, ReadGives, ReadFails, InScript};

use crate::declarations::{head_line, object_line, system_line, task_line, thread_line};
use crate::fault::LineFault;
use crate::place::Place;
use kern_ids::faults::{ReadFault, Why};
use kern_ids::ids::ThreadId;
use kernel_model::boot::Side;
use kernel_model::scenario::Scenario;
use line_text::{Verb, Words, cut_at, is_plain, is_word, read_call};
use std::alloc::Global;

const MOST: usize = 200_000;

// A word of the order line.
fn turn(threads: u32, count: usize, words: &mut Words<'_>) -> Result<ThreadId, Why>
    ensures value { MatchResult result (λ n. turn threads count words.old ≡ Ok (n, words.new)) (λ e. turn threads count words.old ≡ Err e) }
    ensures declared { IfOk result (λ n. n < threads) }
    ensures room { OnOk result (count < 200000) }
{
    if count < MOST {
        return words.thread(threads);
    }
    match words.next() {
        Some(word) if is_plain(word) => Err(Why::Limit),
        Some(_) => Err(Why::Number),
        None => Err(Why::Word),
    }
}

// All words of the order line.
fn order_words(scenario: &mut Scenario, words: &mut Words<'_>) -> Result<(), LineFault>
    ensures { OrderGives result scenario.new (order_words (length scenario.old.boot.sides) scenario.old words.old) }
{
    let threads = scenario.boot().sides().len() as u32;
    'words: while !words.is_empty() {
        scenario.valid();
        let count = scenario.order_len();
        let who = turn(threads, count, words)?;
        scenario.add_order(who)?;
    }
    Ok(())
}

// A thread line or the order line.
#[tactic(auto, unfolding(crate::specs::Grammar::later_line))]
fn later_line(
    alloc: Global,
    scenario: &mut Scenario,
    word: &[u8],
    words: &mut Words<'_>,
) -> Result<Place, LineFault>
    ensures value { StepGives result scenario.new (later_line scenario.old word.now words.old) }
    ensures place { IfOk result (λ place. InScript place scenario.new) }
{
    let tasks = scenario.boot().tasks().len() as u32;
    let threads = scenario.boot().sides().len() as u32;
    if is_word(word, b"thread") {
        let side = thread_line(threads, tasks, words)?;
        scenario.add_thread(alloc, side)?;
        Ok(Place::Script)
    } else if is_word(word, b"order") {
        order_words(scenario, words)?;
        Ok(Place::Ordered)
    } else {
        Err(LineFault::Bad(Why::Word))
    }
}

// An object line, or a later one.
#[tactic(auto, unfolding(crate::specs::Grammar::declaring_line))]
fn declaring_line(
    alloc: Global,
    scenario: &mut Scenario,
    word: &[u8],
    words: &mut Words<'_>,
) -> Result<Place, LineFault>
    ensures value { StepGives result scenario.new (declaring_line scenario.old word.now words.old) }
    ensures place { IfOk result (λ place. InScript place scenario.new) }
{
    if !is_word(word, b"object") {
        return later_line(alloc, scenario, word, words);
    }
    let tasks = scenario.boot().tasks().len() as u32;
    let next = scenario.boot().objects().len() as u32;
    let object = object_line(tasks, next, words)?;
    scenario.add_object(object)?;
    Ok(Place::Objects)
}

// A task line, or a later one.
#[tactic(auto, unfolding(crate::specs::Grammar::line_at))]
fn line_of_tasks(
    alloc: Global,
    scenario: &mut Scenario,
    word: &[u8],
    words: &mut Words<'_>,
) -> Result<Place, LineFault>
    ensures value { StepGives result scenario.new (line_at Place.Tasks scenario.old word.now words.old) }
    ensures place { IfOk result (λ place. InScript place scenario.new) }
{
    if !is_word(word, b"task") {
        return declaring_line(alloc, scenario, word, words);
    }
    let next = scenario.boot().tasks().len() as u32;
    let task = task_line(scenario.form(), next, words)?;
    scenario.add_task(task)?;
    Ok(Place::Tasks)
}

// The number and the side of the thread that was declared last.
fn last_thread(scenario: &Scenario) -> (ThreadId, bool)
    requires { 0 < length scenario.now.boot.sides }
    ensures who { result.0 + 1 ≡ length scenario.now.scripts }
    ensures side { result.1 ≡ is_some (task_of_side (slice_index_or scenario.now.boot.sides (last_thread scenario.now) Kernel)) }
{
    scenario.valid();
    let sides = scenario.boot().sides();
    let last = sides.len() - 1;
    match ThreadId::new(last as u32) {
        Some(who) => (who, matches!(sides[last], Side::Task(_))),
        None => unreachable!(),
    }
}

// A call line of the last thread.
#[tactic(auto, unfolding(crate::specs::Grammar::script_line))]
fn script_line(
    scenario: &mut Scenario,
    word: &[u8],
    words: &mut Words<'_>,
) -> Result<Place, LineFault>
    requires { 0 < length scenario.old.boot.sides }
    ensures value { StepGives result scenario.new (script_line scenario.old word.now words.old) }
    ensures place { IfOk result (λ place. InScript place scenario.new) }
{
    let (who, is_of_task) = last_thread(scenario);
    let verb = match Verb::of_word(word) {
        Some(verb) => verb,
        None => return Err(LineFault::Bad(Why::Word)),
    };
    if verb.is_of_task() != is_of_task {
        return Err(LineFault::Bad(Why::WrongSide));
    }
    if scenario.call_count() >= MOST {
        return Err(LineFault::Bad(Why::Limit));
    }
    let tasks = scenario.boot().tasks().len() as u32;
    let objects = scenario.boot().objects().len() as u32;
    let call = read_call(verb, words, tasks, objects)?;
    scenario.valid();
    scenario.add_call(who, call)?;
    Ok(Place::Script)
}

// A line in a script.
#[tactic(auto, unfolding(crate::specs::Grammar::line_at))]
fn line_of_script(
    alloc: Global,
    scenario: &mut Scenario,
    word: &[u8],
    words: &mut Words<'_>,
) -> Result<Place, LineFault>
    requires { 0 < length scenario.old.boot.sides }
    ensures value { StepGives result scenario.new (line_at Place.Script scenario.old word.now words.old) }
    ensures place { IfOk result (λ place. InScript place scenario.new) }
{
    if is_word(word, b"thread") || is_word(word, b"order") {
        later_line(alloc, scenario, word, words)
    } else {
        script_line(scenario, word, words)
    }
}

// The end line.
#[tactic(auto, unfolding(crate::specs::Grammar::line_at))]
fn end_line(scenario: &mut Scenario, word: &[u8], words: &mut Words<'_>) -> Result<Place, LineFault>
    ensures value { StepGives result scenario.new (line_at Place.Ordered scenario.old word.now words.old) }
    ensures place { IfOk result (λ place. InScript place scenario.new) }
{
    if !is_word(word, b"end") {
        return Err(LineFault::Bad(Why::Word));
    }
    words.finished()?;
    Ok(Place::Ended)
}

// One line more, after the first two.
#[tactic(auto, unfolding(crate::specs::Grammar::line_at, crate::specs::Grammar::step))]
fn take_line(
    alloc: Global,
    scenario: &mut Scenario,
    place: Place,
    line: &[u8],
) -> Result<Place, LineFault>
    requires { InScript place scenario.old }
    ensures value { StepGives result scenario.new (step (reading place scenario.old) (words_of line.now)) }
    ensures place { IfOk result (λ place. InScript place scenario.new) }
{
    let mut words = Words::new(line);
    let word = match words.next() {
        Some(word) => word,
        None => return Err(LineFault::Bad(Why::Word)),
    };
    match place {
        Place::Tasks => line_of_tasks(alloc, scenario, word, &mut words),
        Place::Objects => declaring_line(alloc, scenario, word, &mut words),
        Place::Script => line_of_script(alloc, scenario, word, &mut words),
        Place::Ordered => end_line(scenario, word, &mut words),
        Place::Ended => Err(LineFault::Bad(Why::AfterEnd)),
    }
}

// The first line: whether the form is the first.
#[tactic(auto, unfolding(crate::specs::Grammar::step))]
fn take_head(line: &[u8]) -> Result<bool, Why>
    ensures { MatchResult result (λ first. step start (words_of line.now) ≡ Ok (headed first)) (λ e. step start (words_of line.now) ≡ Err e) }
{
    let mut words = Words::new(line);
    match words.next() {
        Some(word) => head_line(word, &mut words),
        None => Err(Why::Word),
    }
}

// The second line: a scenario with nothing declared.
#[tactic(auto, unfolding(crate::specs::Grammar::step))]
fn take_system(alloc: Global, first: bool, line: &[u8]) -> Result<Scenario, Why>
    ensures { MatchResult result (λ s. step (headed first) (words_of line.now) ≡ Ok (reading Place.Tasks s)) (λ e. step (headed first) (words_of line.now) ≡ Err e) }
{
    let mut words = Words::new(line);
    let word = match words.next() {
        Some(word) => word,
        None => return Err(Why::Word),
    };
    let (form, params) = system_line(first, word, &mut words)?;
    Ok(Scenario::new(alloc, form, params))
}

// A line of the text, and what comes after it.
fn next_line(rest: &[u8], line: u32) -> Result<(&[u8], &[u8]), ReadFault>
    ensures value { MatchResult result (λ parts. lines_of rest.now ≡ parts.0.now ∷ lines_of parts.1.now) (λ e. (lines_of rest.now ≡ rest.now ∷ []) × (e ≡ ReadFault.Bad line Why.NoEnd)) }
    ensures shorter { IfOk result (λ parts. length parts.1.now < length rest.now) }
{
    match cut_at(rest, b'\n') {
        Some(parts) => Ok(parts),
        None => Err(ReadFault::Bad {
            line,
            why: Why::NoEnd,
        }),
    }
}

// The first two lines: a scenario with nothing declared, and what comes after them.
fn open(alloc: Global, text: &[u8]) -> Result<(Scenario, &[u8]), ReadFault>
    ensures value { MatchResult result
        (λ r. front_of text.now ≡ front_from (reading Place.Tasks r.0) 3 (lines_of r.1.now))
        (λ e. ReadFails e (front_of text.now)) }
    ensures shorter { IfOk result (λ r. length r.1.now + 2 ≤ length text.now) }
{
    let (head, rest) = match next_line(text, 1) {
        Ok(parts) => parts,
        Err(fault) => return Err(fault),
    };
    let first = match take_head(head) {
        Ok(first) => first,
        Err(why) => return Err(ReadFault::Bad { line: 1, why }),
    };
    let (system, rest) = match next_line(rest, 2) {
        Ok(parts) => parts,
        Err(fault) => return Err(fault),
    };
    match take_system(alloc, first, system) {
        Ok(scenario) => Ok((scenario, rest)),
        Err(why) => Err(ReadFault::Bad { line: 2, why }),
    }
}

// Whether it is after the end line.
fn is_ended(place: Place) -> bool
    ensures { result ≡ is_ended place }
{
    matches!(place, Place::Ended)
}

// The scenario that a text begins with, what comes after it, and the number of the line there.
fn scan(alloc: Global, text: &[u8]) -> Result<(Scenario, &[u8], u32), ReadFault>
    requires { length text.now < 2 ^ 31 }
    ensures { MatchResult result
        (λ r. front_of text.now ≡ Ok (record { plan = r.0; behind = lines_of r.1.now; number = r.2 }))
        (λ e. ReadFails e (front_of text.now)) }
{
    let (mut scenario, mut rest) = match open(alloc, text) {
        Ok(opened) => opened,
        Err(fault) => return Err(fault),
    };
    let mut place = Place::Tasks;
    let mut line = 3u32;
    'lines: loop {
        if is_ended(place) {
            return Ok((scenario, rest, line));
        }
        let (bytes, others) = match next_line(rest, line) {
            Ok(parts) => parts,
            Err(fault) => return Err(fault),
        };
        place = match take_line(alloc, &mut scenario, place, bytes) {
            Ok(next) => next,
            Err(fault) => return Err(fault.at(line)),
        };
        line += 1;
        rest = others;
    }
}

// The scenario that a text is, or its first fault.
fn read_whole(alloc: Global, text: &[u8]) -> Result<Scenario, ReadFault>
    requires { length text.now < 2 ^ 31 }
    ensures { ReadGives result (scenario_of text.now) }
{
    match scan(alloc, text) {
        Ok((scenario, rest, line)) => {
            if rest.is_empty() {
                Ok(scenario)
            } else {
                Err(ReadFault::Bad {
                    line,
                    why: Why::AfterEnd,
                })
            }
        }
        Err(fault) => Err(fault),
    }
}

/// The scenario that a text is, or its first fault. Fewer than 2^31 bytes. A text is read exactly where it is
/// that of a scenario, unless memory runs out.
pub fn read_scenario(alloc: Global, text: &[u8]) -> Result<Scenario, ReadFault>
    requires { length text.now < 2 ^ 31 }
    // Which scenario or which fault it is.
    ensures exact { ReadGives result (scenario_of text.now) }
    // What is read is the text of that scenario.
    ensures written { IfOk result (λ s. text.now ≡ scenario_text s) }
    // A scenario that was read can be written.
    ensures valid { IfOk result (λ s. HasText s) }
    // The text of a scenario is read as it.
    ensures again { (s : Plan) → HasText s → text.now ≡ scenario_text s → ReadGives result (Ok s) }
{
    read_whole(alloc, text)
}

/// The scenario that a text begins with, and how many bytes and lines of the text it takes; or the text's
/// first fault. Fewer than 2^31 bytes. A scenario is read exactly where the bytes begin with its text, unless
/// memory runs out.
pub fn read_front(alloc: Global, text: &[u8]) -> Result<(Scenario, usize, u32), ReadFault>
    requires { length text.now < 2 ^ 31 }
    // Which scenario, how many bytes and lines, or which fault it is.
    ensures exact { FrontGives result (front_taken text.now) }
    // It is never that bytes follow.
    ensures within { (line : ℕ) → result ≢ Err (ReadFault.Bad line Why.AfterEnd) }
    // The bytes that were taken are the text of that scenario.
    ensures written { IfOk result (λ r. take r.1 text.now ≡ scenario_text r.0) }
    // They are so many bytes,
    ensures bytes { IfOk result (λ r. r.1 ≡ length (scenario_text r.0)) }
    // and so many lines.
    ensures lines { IfOk result (λ r. r.2 ≡ length (scenario_lines r.0)) }
    // A scenario that was read can be written.
    ensures valid { IfOk result (λ r. HasText r.0) }
    // A scenario whose text the bytes begin with is read.
    ensures again { (s : Plan) (rest : List ℕ) → HasText s → text.now ≡ scenario_text s ++ rest → FrontGives result (Ok (s, length (scenario_text s), length (scenario_lines s))) }
{
    let (scenario, rest, line) = match scan(alloc, text) {
        Ok(parts) => parts,
        Err(fault) => return Err(fault),
    };
    Ok((scenario, text.len() - rest.len(), line - 1))
}
