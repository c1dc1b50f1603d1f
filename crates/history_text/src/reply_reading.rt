//! Reading replies.

ghost use Rattle.std.specs.Prelude.{◌≡◌, ◌≤◌, ◌<◌, ◌-◌, ◌++◌, length, MatchResult, IfOk, Ok, Err, MatchOption, find, Some, None};
ghost use Rattle.std.specs.Str.{bytes_eq};
ghost use Rattle.line_text.specs.Words.{finished};
ghost use Rattle.history_text.specs.Entries.{state_word, cause_word};
ghost use Rattle.history_text.specs.ReplyReading.{one_of, states, causes, refusal_word, bare_refusals, kind_text, kinds, count, long_count, task_words, bytes_reply, state_words, was_reply, pages_reply, purged_reply, moved_reply, aged_reply, killed_reply, frames_reply, queue_words, tokens_reply, shortage_words, refusal_words, reply_by, reply_of};

use crate::kind::Kind;
use kern_ids::calls::State;
use kern_ids::faults::Why;
use kern_ids::ids::PageId;
use kern_ids::lines::TaskLine;
use kern_ids::replies::{
    Cause, Counts, FrameCounts, Move, QueueCounts, Refusal, Reply, TokenCounts,
};
use line_text::{Words, is_word};

const STATES: [State; 3] = [State::Nonvolatile, State::Volatile, State::Empty];

const CAUSES: [Cause; 3] = [Cause::Limit, Cause::HighWater, Cause::Pressure];

const BARE: [Refusal; 7] = [
    Refusal::Dead,
    Refusal::NotMine,
    Refusal::NoObject,
    Refusal::Already,
    Refusal::Invalid,
    Refusal::Range,
    Refusal::Emptied,
];

fn state_text(state: State) -> &'static [u8]
    ensures { result.now ≡ state_word state }
{
    match state {
        State::Nonvolatile => b"nonvolatile",
        State::Volatile => b"volatile",
        State::Empty => b"empty",
    }
}

fn cause_text(cause: Cause) -> &'static [u8]
    ensures { result.now ≡ cause_word cause }
{
    match cause {
        Cause::Limit => b"limit",
        Cause::HighWater => b"highwater",
        Cause::Pressure => b"pressure",
    }
}

fn refusal_text(refusal: Refusal) -> &'static [u8]
    ensures { result.now ≡ refusal_word refusal }
{
    match refusal {
        Refusal::Dead => b"dead",
        Refusal::NotMine => b"notmine",
        Refusal::NoObject => b"noobject",
        Refusal::Already => b"already",
        Refusal::Invalid => b"invalid",
        Refusal::Range => b"range",
        Refusal::Emptied => b"emptied",
        Refusal::Shortage { .. } => b"shortage",
    }
}

fn state_of(word: &[u8]) -> Option<State>
    ensures { result ≡ find (λ s. bytes_eq word.now (state_word s)) states }
{
    STATES
        .iter()
        .copied()
        .find(|state| word == state_text(*state))
}

fn cause_of(word: &[u8]) -> Option<Cause>
    ensures { result ≡ find (λ c. bytes_eq word.now (cause_word c)) causes }
{
    CAUSES
        .iter()
        .copied()
        .find(|cause| word == cause_text(*cause))
}

fn bare_refusal_of(word: &[u8]) -> Option<Refusal>
    ensures { result ≡ find (λ r. bytes_eq word.now (refusal_word r)) bare_refusals }
{
    BARE.iter()
        .copied()
        .find(|refusal| word == refusal_text(*refusal))
}

// The state whose word is the last one.
#[tactic(auto, unfolding(crate::specs::ReplyReading::state_words))]
fn read_state(words: &mut Words<'_>) -> Result<State, Why>
    ensures { MatchResult result (λ s. state_words words.old ≡ Ok s) (λ e. state_words words.old ≡ Err e) }
{
    let word = match words.next() {
        Some(word) => word,
        None => return Err(Why::Word),
    };
    match state_of(word) {
        Some(state) => {
            words.finished()?;
            Ok(state)
        }
        None => Err(Why::Word),
    }
}

// The reply after its first word.
#[tactic(auto, unfolding(crate::specs::ReplyReading::bytes_reply))]
fn read_bytes(words: &mut Words<'_>) -> Result<Reply, Why>
    ensures { MatchResult result (λ r. bytes_reply words.old ≡ Ok r) (λ e. bytes_reply words.old ≡ Err e) }
{
    let bytes = words.hex()?;
    words.finished()?;
    Ok(Reply::Bytes(bytes))
}

#[tactic(auto, unfolding(crate::specs::ReplyReading::was_reply))]
fn read_was(words: &mut Words<'_>) -> Result<Reply, Why>
    ensures { MatchResult result (λ r. was_reply words.old ≡ Ok r) (λ e. was_reply words.old ≡ Err e) }
{
    let on = words.choice(b"1", b"0")?;
    words.finished()?;
    Ok(Reply::Was(on))
}

#[tactic(auto, unfolding(crate::specs::ReplyReading::pages_reply))]
fn read_pages(words: &mut Words<'_>) -> Result<Reply, Why>
    ensures { MatchResult result (λ r. pages_reply words.old ≡ Ok r) (λ e. pages_reply words.old ≡ Err e) }
{
    let res_non = words.number(0, u32::MAX)?;
    let res_vol = words.number(0, u32::MAX)?;
    let com_non = words.number(0, u32::MAX)?;
    let com_vol = words.number(0, u32::MAX)?;
    let footprint = words.number(0, u32::MAX)?;
    words.finished()?;
    Ok(Reply::Pages(Counts {
        res_non,
        res_vol,
        com_non,
        com_vol,
        footprint,
    }))
}

#[tactic(auto, unfolding(crate::specs::ReplyReading::purged_reply))]
fn read_purged(words: &mut Words<'_>) -> Result<Reply, Why>
    ensures { MatchResult result (λ r. purged_reply words.old ≡ Ok r) (λ e. purged_reply words.old ≡ Err e) }
{
    let obj = words.object(256)?;
    words.finished()?;
    Ok(Reply::Purged(obj))
}

#[tactic(auto, unfolding(crate::specs::ReplyReading::moved_reply))]
fn read_moved(moved: Move, words: &mut Words<'_>) -> Result<Reply, Why>
    ensures { MatchResult result (λ r. moved_reply moved words.old ≡ Ok r) (λ e. moved_reply moved words.old ≡ Err e) }
{
    let obj = words.object(256)?;
    let page = words.number(0, 255)?;
    words.finished()?;
    Ok(Reply::Moved(moved, PageId { obj, page }))
}

// All words, at most 64 tasks.
fn read_tasks(words: &mut Words<'_>) -> Result<TaskLine, Why>
    ensures { MatchResult result (λ ts. task_words 64 words.old ≡ Ok ts) (λ e. task_words 64 words.old ≡ Err e) }
{
    let mut tasks = TaskLine::new();
    'words: while !words.is_empty() {
        if tasks.len() == 64 {
            return Err(Why::Limit);
        }
        let task = words.task(64)?;
        tasks.push(task);
    }
    Ok(tasks)
}

#[tactic(auto, unfolding(crate::specs::ReplyReading::aged_reply))]
fn read_aged(words: &mut Words<'_>) -> Result<Reply, Why>
    ensures { MatchResult result (λ r. aged_reply words.old ≡ Ok r) (λ e. aged_reply words.old ≡ Err e) }
{
    let tasks = read_tasks(words)?;
    Ok(Reply::Aged(tasks))
}

#[tactic(auto, unfolding(crate::specs::ReplyReading::killed_reply))]
fn read_killed(words: &mut Words<'_>) -> Result<Reply, Why>
    ensures { MatchResult result (λ r. killed_reply words.old ≡ Ok r) (λ e. killed_reply words.old ≡ Err e) }
{
    let task = words.task(64)?;
    let word = match words.next() {
        Some(word) => word,
        None => return Err(Why::Word),
    };
    match cause_of(word) {
        Some(cause) => {
            words.finished()?;
            Ok(Reply::Killed(task, cause))
        }
        None => Err(Why::Word),
    }
}

#[tactic(auto, unfolding(crate::specs::ReplyReading::frames_reply))]
fn read_frames(words: &mut Words<'_>) -> Result<Reply, Why>
    ensures { MatchResult result (λ r. frames_reply words.old ≡ Ok r) (λ e. frames_reply words.old ≡ Err e) }
{
    let free = words.number(0, u32::MAX)?;
    let active = words.number(0, u32::MAX)?;
    let inactive = words.number(0, u32::MAX)?;
    let stored = words.number(0, u32::MAX)?;
    let entered = words.long_number(u64::MAX)?;
    let left = words.long_number(u64::MAX)?;
    words.finished()?;
    Ok(Reply::Frames(FrameCounts {
        free,
        active,
        inactive,
        stored,
        entered,
        left,
    }))
}

#[tactic(auto, unfolding(crate::specs::ReplyReading::queue_words))]
fn read_queue(words: &mut Words<'_>) -> Result<QueueCounts, Why>
    ensures { MatchResult result (λ q. queue_words words.old ≡ Ok (q, words.new)) (λ e. queue_words words.old ≡ Err e) }
{
    let tokens = words.number(0, u32::MAX)?;
    let ripe = words.number(0, u32::MAX)?;
    let next = words.long_number(u64::MAX)?;
    let last = words.long_number(u64::MAX)?;
    Ok(QueueCounts {
        tokens,
        ripe,
        next,
        last,
    })
}

#[tactic(auto, unfolding(crate::specs::ReplyReading::tokens_reply))]
fn read_tokens(words: &mut Words<'_>) -> Result<Reply, Why>
    ensures { MatchResult result (λ r. tokens_reply words.old ≡ Ok r) (λ e. tokens_reply words.old ≡ Err e) }
{
    let obsolete = read_queue(words)?;
    let lifo = read_queue(words)?;
    let fifo = read_queue(words)?;
    words.finished()?;
    Ok(Reply::Tokens(TokenCounts {
        obsolete,
        lifo,
        fifo,
    }))
}

#[tactic(auto, unfolding(crate::specs::ReplyReading::shortage_words))]
fn read_shortage(words: &mut Words<'_>) -> Result<Refusal, Why>
    ensures { MatchResult result (λ r. shortage_words words.old ≡ Ok r) (λ e. shortage_words words.old ≡ Err e) }
{
    let needed = words.number(0, u32::MAX)?;
    let free = words.number(0, u32::MAX)?;
    words.finished()?;
    Ok(Refusal::Shortage { needed, free })
}

#[tactic(auto, unfolding(crate::specs::ReplyReading::refusal_words))]
fn read_refusal(words: &mut Words<'_>) -> Result<Refusal, Why>
    ensures { MatchResult result (λ r. refusal_words words.old ≡ Ok r) (λ e. refusal_words words.old ≡ Err e) }
{
    let word = match words.next() {
        Some(word) => word,
        None => return Err(Why::Word),
    };
    if is_word(word, b"shortage") {
        return read_shortage(words);
    }
    match bare_refusal_of(word) {
        Some(refusal) => {
            words.finished()?;
            Ok(refusal)
        }
        None => Err(Why::Word),
    }
}

// A reply that is its first word alone.
fn bare(words: &mut Words<'_>, reply: Reply) -> Result<Reply, Why>
    ensures { MatchResult result (λ r. finished words.old reply ≡ Ok r) (λ e. finished words.old reply ≡ Err e) }
{
    words.finished()?;
    Ok(reply)
}

// The reply that the words after the first one are.
#[tactic(auto, unfolding(crate::specs::ReplyReading::reply_by))]
fn read_by(kind: Kind, words: &mut Words<'_>) -> Result<Reply, Why>
    ensures { MatchResult result (λ r. reply_by kind words.old ≡ Ok r) (λ e. reply_by kind words.old ≡ Err e) }
{
    match kind {
        Kind::Mapped => bare(words, Reply::Mapped),
        Kind::Unmapped => bare(words, Reply::Unmapped),
        Kind::Wrote => bare(words, Reply::Wrote),
        Kind::Bytes => read_bytes(words),
        Kind::Old => Ok(Reply::Old(read_state(words)?)),
        Kind::State => Ok(Reply::Is(read_state(words)?)),
        Kind::Was => read_was(words),
        Kind::Pages => read_pages(words),
        Kind::Exited => bare(words, Reply::Exited),
        Kind::Purged => read_purged(words),
        Kind::Nothing => bare(words, Reply::Nothing),
        Kind::Enough => bare(words, Reply::Enough),
        Kind::Deactivated => read_moved(Move::Deactivated, words),
        Kind::Reactivated => read_moved(Move::Reactivated, words),
        Kind::Freed => read_moved(Move::Freed, words),
        Kind::Compressed => read_moved(Move::Compressed, words),
        Kind::Requeued => read_moved(Move::Requeued, words),
        Kind::Idle => bare(words, Reply::Idle),
        Kind::Aged => read_aged(words),
        Kind::Quiet => bare(words, Reply::Quiet),
        Kind::Killed => read_killed(words),
        Kind::NoVictim => bare(words, Reply::NoVictim),
        Kind::Banded => bare(words, Reply::Banded),
        Kind::Limited => bare(words, Reply::Limited),
        Kind::Frames => read_frames(words),
        Kind::Tokens => read_tokens(words),
        Kind::Refused => Ok(Reply::Refused(read_refusal(words)?)),
        Kind::Attached => bare(words, Reply::Attached),
    }
}

/// The reply that words are.
#[tactic(auto, unfolding(crate::specs::ReplyReading::reply_of))]
pub fn read_reply(words: &mut Words<'_>) -> Result<Reply, Why>
    ensures { MatchResult result (λ r. reply_of words.old ≡ Ok r) (λ e. reply_of words.old ≡ Err e) }
{
    let word = match words.next() {
        Some(word) => word,
        None => return Err(Why::Word),
    };
    match Kind::of_word(word) {
        Some(kind) => read_by(kind, words),
        None => Err(Why::Word),
    }
}
