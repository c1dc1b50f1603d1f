//! Parts of lines, and lines one after another.

ghost use Rattle.std.specs.Prelude.{◌≡◌, ◌≤◌, ◌+◌, ◌++◌, length, OnOk};
ghost use Rattle.std.specs.Fmt.{decimal};
ghost use Rattle.line_text.specs.Cut.{spaced};
ghost use Rattle.history_text.specs.Entries.{reply_words, state_word};
ghost use Rattle.report_tables.specs.Table.{line_text, activity_word};

use history_text::push_reply;
use kern_ids::calls::State;
use kern_ids::entries::NoMemory;
use kern_ids::lines::LineBuf;
use kern_ids::replies::Reply;
use line_text::push_decimal;

/// The word of a state.
pub fn state_name(state: State) -> &'static str
    ensures value { result.now ≡ state_word state }
    ensures short { length result.now ≤ 11 }
{
    match state {
        State::Nonvolatile => "nonvolatile",
        State::Volatile => "volatile",
        State::Empty => "empty",
    }
}

/// The word of a task that is active or not.
pub fn activity(active: bool) -> &'static str
    ensures value { result.now ≡ activity_word active }
    ensures short { length result.now ≤ 6 }
{
    if active { "active" } else { "idle" }
}

/// Appends a fixed part and a number.
pub fn push_field(line: &mut LineBuf, name: &[u8], n: u64)
    requires { length line.old + length name.now + 20 ≤ 1100 }
    ensures bytes { line.new ≡ line.old ++ (name.now ++ decimal n) }
    ensures room { length line.new ≤ length line.old + length name.now + 20 }
{
    line.push(name);
    push_decimal(line, n);
}

/// Appends a fixed part and a word.
pub fn push_word(line: &mut LineBuf, name: &[u8], word: &[u8])
    requires { length line.old + length name.now + length word.now ≤ 1100 }
    ensures bytes { line.new ≡ line.old ++ (name.now ++ word.now) }
    ensures room { length line.new ≡ length line.old + length name.now + length word.now }
{
    line.push(name);
    line.push(word);
}

/// Appends a space and a reply, at most 525 bytes.
pub fn push_spaced_reply(line: &mut LineBuf, reply: &Reply)
    requires { length line.old + 525 ≤ 1100 }
    ensures bytes { line.new ≡ line.old ++ spaced (reply_words reply.now) }
    ensures room { length line.new ≤ length line.old + 525 }
{
    line.push(b" ");
    push_reply(line, reply);
}

/// A reply as a line of its own.
pub fn reply_line(reply: &Reply) -> LineBuf
    ensures { result ≡ line_text (reply_words reply.now) }
{
    let mut line = LineBuf::new();
    push_reply(&mut line, reply);
    line.push(b"\n");
    line
}

/// Appends bytes to a text.
pub fn append(out: &mut Vec<u8>, bytes: &[u8]) -> Result<(), NoMemory>
    ensures { OnOk result (out.new.items ≡ out.old.items ++ bytes.now) }
{
    match out.extend_from_slice(bytes) {
        Ok(()) => Ok(()),
        Err(_) => Err(NoMemory),
    }
}
