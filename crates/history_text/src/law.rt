//! Every sound entry has a text.

ghost use Rattle.std.specs.Prelude.{◌≡◌, ◌≤◌, ◌<◌, ◌^◌, List, length, All};
ghost use Rattle.std.specs.List.{AllByRecursion};
ghost use Rattle.kern_ids.specs.Entries.{IsSoundCall, IsSoundReply, IsSound};
ghost use Rattle.line_text.specs.Calls.{HasLine};
ghost use Rattle.history_text.specs.ReplyReading.{HasQueue, HasRefusal, HasReply};
ghost use Rattle.history_text.specs.EntryReading.{HasText};

use kern_ids::calls::Call;
use kern_ids::entries::Entry;
use kern_ids::lines::TaskLine;
use kern_ids::replies::{QueueCounts, Refusal, Reply};

// What the type says of a number of 32 bits.
fn number_has_word(n: u32)
    ensures { n < 2 ^ 32 }
{}

// What the type says of a number of 64 bits.
fn long_number_has_word(n: u64)
    ensures { n < 2 ^ 64 }
{}

// What the type says of bytes.
fn bytes_have_word(bytes: &[u8])
    ensures { AllByRecursion (λ b. b < 256) bytes.now }
{}

// What the type says of tasks.
fn tasks_have_words(tasks: &TaskLine)
    ensures few { length tasks.now ≤ 64 }
    ensures all { AllByRecursion (λ t. t < 64) tasks.now }
{
    for i in 0..tasks.len() {
        match tasks.get(i) {
            Some(task) => {
                let _task = task.get();
            }
            None => unreachable!(),
        }
    }
}

/// A sound call has a line.
pub fn call_has_line(call: &Call)
    requires { IsSoundCall call.now }
    ensures { HasLine 64 256 call.now }
{
    match call {
        Call::Map { obj } | Call::Unmap { obj } | Call::GetState { obj } | Call::Attach { obj } => {
            let _obj = obj.get();
        }
        Call::Write { obj, off, bytes } => {
            let _obj = obj.get();
            number_has_word(*off);
            bytes_have_word(bytes.as_slice());
        }
        Call::Read { obj, off, len } => {
            let _obj = obj.get();
            number_has_word(*off);
            number_has_word(*len);
        }
        Call::SetState { obj, word } => {
            let _obj = obj.get();
            number_has_word(*word);
        }
        Call::SetBand { task, band } => {
            let _task = task.get();
            let _band = band.get();
        }
        Call::SetLimits { task, .. } => {
            let _task = task.get();
        }
        _ => (),
    }
}

// The tokens of a queue have words.
fn queue_has_words(queue: &QueueCounts)
    ensures { HasQueue queue.now }
{
    number_has_word(queue.tokens);
    number_has_word(queue.ripe);
    long_number_has_word(queue.next);
    long_number_has_word(queue.last);
}

// A refusal has words.
fn refusal_has_words(refusal: &Refusal)
    ensures { HasRefusal refusal.now }
{
    if let Refusal::Shortage { needed, free } = refusal {
        number_has_word(*needed);
        number_has_word(*free);
    }
}

/// A sound reply has words.
pub fn reply_has_words(reply: &Reply)
    requires { IsSoundReply reply.now }
    ensures { HasReply reply.now }
{
    match reply {
        Reply::Bytes(bytes) => bytes_have_word(bytes.as_slice()),
        Reply::Pages(counts) => {
            number_has_word(counts.res_non);
            number_has_word(counts.res_vol);
            number_has_word(counts.com_non);
            number_has_word(counts.com_vol);
            number_has_word(counts.footprint);
        }
        Reply::Purged(obj) => {
            let _obj = obj.get();
        }
        Reply::Moved(_, page) => {
            let _obj = page.obj.get();
        }
        Reply::Aged(tasks) => tasks_have_words(tasks),
        Reply::Killed(task, _) => {
            let _task = task.get();
        }
        Reply::Frames(frames) => {
            number_has_word(frames.free);
            number_has_word(frames.active);
            number_has_word(frames.inactive);
            number_has_word(frames.stored);
            long_number_has_word(frames.entered);
            long_number_has_word(frames.left);
        }
        Reply::Tokens(tokens) => {
            queue_has_words(&tokens.obsolete);
            queue_has_words(&tokens.lifo);
            queue_has_words(&tokens.fifo);
        }
        Reply::Refused(refusal) => refusal_has_words(refusal),
        _ => (),
    }
}

/// A sound entry has a text, which `read_entry` reads as that entry.
pub fn has_text(entry: &Entry)
    requires { IsSound entry.now }
    ensures { HasText entry.now }
{
    let _who = entry.who.get();
    call_has_line(&entry.call);
    reply_has_words(&entry.reply);
}
