//! The lines on a verdict, and on an entry that there isn't.

ghost use Rattle.std.specs.Prelude.{◌≡◌};
ghost use Rattle.replay_check.specs.declared.verdicts.Verdict.TheVariants as verdict;
ghost use Rattle.report_tables.specs.Reports.{verdict_text, no_entry};

use history_text::push_reply;
use kern_ids::ids::ThreadId;
use kern_ids::lines::LineBuf;
use kern_ids::replies::Reply;
use line_text::push_decimal;

/// The history is legal and whole.
pub fn legal_line() -> LineBuf
    ensures { result ≡ verdict_text verdict.Legal }
{
    let mut line = LineBuf::new();
    line.push(b"legal\n");
    line
}

/// The entry of this number has another reply than the expected one.
pub fn wrong_reply_line(place: u32, expected: &Reply) -> LineBuf
    ensures { result ≡ verdict_text (verdict.WrongReply place expected.now) }
{
    let mut line = LineBuf::new();
    line.push(b"entry ");
    push_decimal(&mut line, u64::from(place));
    line.push(b": expected ");
    push_reply(&mut line, expected);
    line.push(b"\n");
    line
}

/// The call of the entry of this number isn't the next one of its thread.
pub fn wrong_call_line(place: u32) -> LineBuf
    ensures { result ≡ verdict_text (verdict.WrongCall place) }
{
    let mut line = LineBuf::new();
    line.push(b"entry ");
    push_decimal(&mut line, u64::from(place));
    line.push(b": not the next call of its thread");
    line.push(b"\n");
    line
}

/// Calls of this thread are missing.
pub fn missing_line(thread: ThreadId) -> LineBuf
    ensures { result ≡ verdict_text (verdict.Missing thread) }
{
    let mut line = LineBuf::new();
    line.push(b"thread ");
    push_decimal(&mut line, u64::from(thread.get()));
    line.push(b": calls missing");
    line.push(b"\n");
    line
}

/// There are only `many` entries, from 0 on.
pub fn no_entry_line(n: u32, many: usize) -> LineBuf
    ensures { result ≡ no_entry n many }
{
    let mut line = LineBuf::new();
    line.push(b"jetlab: no entry ");
    push_decimal(&mut line, u64::from(n));
    line.push(b" of ");
    push_decimal(&mut line, many as u64);
    line.push(b"\n");
    line
}
