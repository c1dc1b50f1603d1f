//! The lines that declare something, each after its first word.

ghost use Rattle.std.specs.Prelude.{◌≡◌, ◌≤◌, ◌<◌, ◌+◌, ◌∷◌, [], ℕ, List, length, All, MatchResult, OnOk, IfOk, IfSome, Ok, Err};
ghost use Rattle.kernel_model.specs.Valid.{IsValidParams, IsValidTask, IsValidObject, IsValidSide, IsDelay, IsRisingFrom};
ghost use Rattle.kernel_model.specs.Scenario.{IsValidForm, FitsForm};
ghost use Rattle.scenario_text.specs.Grammar.{head_line, form_words, system_line, ageing_words, last_word, task_line, sharers, object_line, side_words, thread_line};
ghost use Rattle.scenario_text.specs.Gives.{HasAges, SharerSays, front_sharers};

use kern_ids::faults::Why;
use kern_ids::ids::{Band, TaskId};
use kern_ids::lines::TaskLine;
use kernel_model::boot::{ObjBoot, Params, Side, TaskBoot};
use kernel_model::scenario::Form;
use line_text::{Words, is_plain, is_word};

/// The whole first line: whether the form is the first.
pub fn head_line(word: &[u8], words: &mut Words<'_>) -> Result<bool, Why>
    ensures { MatchResult result (λ first. head_line word.now words.old ≡ Ok first) (λ e. head_line word.now words.old ≡ Err e) }
{
    if !is_word(word, b"jetlab") {
        return Err(Why::Word);
    }
    let first = words.choice(b"1", b"2")?;
    words.finished()?;
    Ok(first)
}

#[tactic(auto, unfolding(crate::specs::Grammar::form_words))]
fn form_words(first: bool, words: &mut Words<'_>) -> Result<Form, Why>
    ensures value { MatchResult result (λ form. form_words first words.old ≡ Ok (form, words.new)) (λ e. form_words first words.old ≡ Err e) }
    ensures valid { IfOk result (λ form. IsValidForm form) }
{
    if !first {
        return Ok(Form::Two);
    }
    words.fixed(b"delay")?;
    let delay = words.number(1, 1000)?;
    Ok(Form::One { delay })
}

/// The whole system line: the form and the parameters.
#[tactic(auto, unfolding(crate::specs::Grammar::system_line))]
pub fn system_line(first: bool, word: &[u8], words: &mut Words<'_>) -> Result<(Form, Params), Why>
    ensures value { MatchResult result (λ said. system_line first word.now words.old ≡ Ok said) (λ e. system_line first word.now words.old ≡ Err e) }
    ensures form { IfOk result (λ said. IsValidForm said.0) }
    ensures params { IfOk result (λ said. IsValidParams said.1) }
{
    if !is_word(word, b"system") {
        return Err(Why::Word);
    }
    words.fixed(b"frames")?;
    let frames = words.number(1, 4096)?;
    words.fixed(b"target")?;
    let target = words.number(0, 4096)?;
    words.fixed(b"inactive")?;
    let inactive = words.number(0, 4096)?;
    words.fixed(b"store")?;
    let store = words.number(0, 65536)?;
    words.fixed(b"critical")?;
    let critical = words.number(0, 4096)?;
    let form = form_words(first, words)?;
    words.finished()?;
    let params = Params {
        frames,
        target,
        inactive,
        store,
        critical,
    };
    Ok((form, params))
}

fn band_of(n: u32) -> Band
    requires { n ≤ 20 }
    ensures { result ≡ n }
{
    match Band::new(n) {
        Some(band) => band,
        None => unreachable!(),
    }
}

// The delay and the ageing band.
#[tactic(auto, unfolding(crate::specs::Grammar::ageing_words))]
fn ageing_words(form: Form, words: &mut Words<'_>) -> Result<(u32, Band), Why>
    requires { IsValidForm form }
    ensures value { MatchResult result (λ ages. ageing_words form words.old ≡ Ok (ages, words.new)) (λ e. ageing_words form words.old ≡ Err e) }
    ensures delay { IfOk result (λ ages. IsDelay ages.0) }
    ensures least { IfOk result (λ ages. 1 ≤ ages.1) }
    ensures most { IfOk result (λ ages. ages.1 ≤ 2) }
    ensures form { IfOk result (λ ages. HasAges form ages.0 ages.1) }
{
    match form {
        Form::One { delay } => Ok((delay, band_of(1))),
        Form::Two => {
            words.fixed(b"delay")?;
            let delay = words.number(1, 1000)?;
            words.fixed(b"ageing")?;
            let ageing = words.band(1, 2)?;
            Ok((delay, ageing))
        }
    }
}

// Whether the line ends with this word.
fn last_word(word: &[u8], words: &mut Words<'_>) -> Result<bool, Why>
    ensures { MatchResult result (λ is. last_word word.now words.old ≡ Ok is) (λ e. last_word word.now words.old ≡ Err e) }
{
    match words.next() {
        None => Ok(false),
        Some(last) if last == word => {
            words.finished()?;
            Ok(true)
        }
        Some(_) => Err(Why::Word),
    }
}

/// A task, the one with the next number.
#[tactic(auto, unfolding(crate::specs::Grammar::task_line))]
pub fn task_line(form: Form, next: u32, words: &mut Words<'_>) -> Result<TaskBoot, Why>
    requires { IsValidForm form }
    ensures value { MatchResult result (λ t. task_line form next words.old ≡ Ok t) (λ e. task_line form next words.old ≡ Err e) }
    ensures room { OnOk result (next ≤ 63) }
    ensures valid { IfOk result (λ t. IsValidTask t) }
    ensures form { IfOk result (λ t. FitsForm form t) }
{
    words.in_order(next, 63)?;
    words.fixed(b"band")?;
    let band = words.band(0, 20)?;
    words.fixed(b"active")?;
    let active = words.limit()?;
    words.fixed(b"inactive")?;
    let inactive = words.limit()?;
    let (delay, ageing) = ageing_words(form, words)?;
    let internal = last_word(b"internal", words)?;
    Ok(TaskBoot {
        band,
        active,
        inactive,
        internal,
        delay,
        ageing,
    })
}

// The next task of an object, at least `bound`; None at the word `pages`.
#[tactic(auto, using(crate::proofs::SharerLemmas::sharers_end, crate::proofs::SharerLemmas::sharers_more))]
fn sharer(tasks: u32, bound: u32, words: &mut Words<'_>) -> Result<Option<TaskId>, Why>
    ensures value { MatchResult result (λ t. SharerSays tasks bound words.old t words.new) (λ e. sharers tasks bound words.old ≡ Err e) }
    ensures least { IfOk result (λ t. IfSome t (λ n. bound ≤ n)) }
    ensures declared { IfOk result (λ t. IfSome t (λ n. n < tasks)) }
    ensures shorter { OnOk result (length words.new < length words.old) }
{
    match words.peek() {
        None => Err(Why::Word),
        Some(word) if is_word(word, b"pages") => {
            let _pages = words.next();
            Ok(None)
        }
        Some(word) if !is_plain(word) => Err(Why::Word),
        Some(_) => {
            let t = words.task(tasks)?;
            if t.get() < bound {
                return Err(Why::Repeated);
            }
            Ok(Some(t))
        }
    }
}

// The tasks of an object from its first one on, up to the word `pages`.
fn sharers(tasks: u32, first: TaskId, words: &mut Words<'_>) -> Result<TaskLine, Why>
    requires { first < tasks }
    ensures value { MatchResult result (λ line. front_sharers (first ∷ []) (sharers tasks (first + 1) words.old) ≡ Ok (line, words.new)) (λ e. sharers tasks (first + 1) words.old ≡ Err e) }
    ensures shared { IfOk result (λ line. 0 < length line) }
    ensures rising { IfOk result (λ line. IsRisingFrom 0 line) }
    ensures declared { IfOk result (λ line. All (λ t. t < tasks) line) }
{
    let mut line = TaskLine::new();
    line.push(first);
    let mut bound = first.get() + 1;
    while let Some(t) = sharer(tasks, bound, words)? {
        line.push(t);
        bound = t.get() + 1;
    }
    Ok(line)
}

/// An object, the one with the next number.
#[tactic(auto, unfolding(crate::specs::Grammar::object_line))]
pub fn object_line(tasks: u32, next: u32, words: &mut Words<'_>) -> Result<ObjBoot, Why>
    ensures value { MatchResult result (λ o. object_line tasks next words.old ≡ Ok o) (λ e. object_line tasks next words.old ≡ Err e) }
    ensures room { OnOk result (next ≤ 255) }
    ensures valid { IfOk result (λ o. IsValidObject tasks o) }
{
    words.in_order(next, 255)?;
    words.fixed(b"task")?;
    let first = words.task(tasks)?;
    let tasks = sharers(tasks, first, words)?;
    let pages = words.number(1, 256)?;
    words.finished()?;
    Ok(ObjBoot { tasks, pages })
}

// Whose thread it is.
fn side_words(tasks: u32, words: &mut Words<'_>) -> Result<Side, Why>
    ensures value { MatchResult result (λ side. side_words tasks words.old ≡ Ok side) (λ e. side_words tasks words.old ≡ Err e) }
    ensures valid { IfOk result (λ side. IsValidSide tasks side) }
{
    if words.choice(b"task", b"kernel")? {
        let t = words.task(tasks)?;
        words.finished()?;
        Ok(Side::Task(t))
    } else {
        words.finished()?;
        Ok(Side::Kernel)
    }
}

/// A thread, the one with the next number.
#[tactic(auto, unfolding(crate::specs::Grammar::thread_line))]
pub fn thread_line(next: u32, tasks: u32, words: &mut Words<'_>) -> Result<Side, Why>
    ensures value { MatchResult result (λ side. thread_line next tasks words.old ≡ Ok side) (λ e. thread_line next tasks words.old ≡ Err e) }
    ensures room { OnOk result (next ≤ 31) }
    ensures valid { IfOk result (λ side. IsValidSide tasks side) }
{
    words.in_order(next, 31)?;
    side_words(tasks, words)
}
