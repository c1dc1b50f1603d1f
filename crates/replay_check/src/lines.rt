//! The line of an entry, put together to be compared with a line of a text.

ghost use Rattle.std.specs.Prelude.{◌≡◌, ◌≤◌, ◌<◌, ◌++◌, ◌∷◌, [], ℕ, List, length, drop, true, false, Some, IfSome, option_copied};
ghost use Rattle.std.specs.Fmt.{decimal};
ghost use Rattle.kern_ids.specs.declared.calls.Call.{Call as ACall};
ghost use Rattle.line_text.specs.Cut.{Word, words_of};
ghost use Rattle.line_text.specs.Calls.{HasLine};
ghost use Rattle.history_text.specs.ReplyReading.{HasReply};
ghost use Rattle.replay_check.specs.Lines.{IsNextCall, front_text};

use history_text::law::{call_has_line, reply_has_words};
use kern_ids::calls::Call;
use kern_ids::ids::ThreadId;
use kern_ids::lines::LineBuf;
use kern_ids::replies::Reply;
use kernel_model::scenario::Scenario;
use kernel_model::script_call::ScriptCall;
use line_text::{Words, push_call, push_decimal};

// The thread whose number a line begins with.
pub(crate) fn thread_of(line: &[u8]) -> Option<ThreadId>
    ensures { (who : ℕ) (ws : List Word) → who < 32 → words_of line.now ≡ decimal who ∷ ws → result ≡ Some who }
{
    let mut words = Words::new(line);
    match words.thread(32) {
        Ok(who) => Some(who),
        Err(_) => None,
    }
}

// Whether a call has a line: its bytes are not none, and its limits are in range.
pub(crate) fn has_line(call: &Call) -> bool
    ensures yes { result ≡ true → HasLine 64 256 call.now }
    ensures no { result ≡ false → HasLine 64 256 call.now → ⊥ }
{
    match call {
        Call::Write { bytes, .. } => {
            if bytes.as_slice().is_empty() {
                return false;
            }
        }
        Call::SetLimits {
            active,
            inactive,
            ..
        } => {
            if 65_536 < active.pages {
                return false;
            }
            if 65_536 < inactive.pages {
                return false;
            }
        }
        _ => (),
    }
    call_has_line(call);
    true
}

// Whether a reply has words: its bytes are not none, and its page is in range.
fn has_reply(reply: &Reply) -> bool
    ensures yes { result ≡ true → HasReply reply.now }
    ensures no { result ≡ false → HasReply reply.now → ⊥ }
{
    match reply {
        Reply::Bytes(bytes) => {
            if bytes.as_slice().is_empty() {
                return false;
            }
        }
        Reply::Moved(_, page) => {
            if 255 < page.page {
                return false;
            }
        }
        _ => (),
    }
    reply_has_words(reply);
    true
}

// The call that comes next in a thread's script. Each thread has made so many.
pub(crate) fn next_call<'a>(
    scenario: &'a Scenario,
    made: &[usize; 32],
    who: ThreadId,
) -> Option<&'a ScriptCall>
    ensures next { IfSome result (λ call. IsNextCall scenario.now made.now who call.now) }
    ensures only { (call : ACall) → IsNextCall scenario.now made.now who call → option_copied result ≡ Some call }
{
    let thread = who.get() as usize;
    if scenario.scripts().len() <= thread {
        return None;
    }
    match scenario.script_call(who, made[thread]) {
        Some(call) => Some(call),
        None => None,
    }
}

// Puts together the line of an entry up to its reply.
pub(crate) fn push_front(line: &mut LineBuf, who: ThreadId, call: &Call)
    requires { line.old ≡ [] }
    ensures bytes { line.new ≡ front_text who call.now }
    ensures room { length line.new ≤ 558 }
{
    push_decimal(line, u64::from(who.get()));
    line.push(b" ");
    push_call(line, call);
    line.push(b" = ");
}

// Whether a line begins with these bytes.
pub(crate) fn begins_with(line: &[u8], front: &[u8]) -> bool
    ensures yes { result ≡ true → line.now ≡ front.now ++ drop (length front.now) line.now }
    ensures no { result ≡ false → (rest : List ℕ) → line.now ≡ front.now ++ rest → ⊥ }
{
    line.starts_with(front)
}

// Whether a reply has words, and a line is this text with them.
pub(crate) fn ends_with_reply(line: &[u8], text: &[u8], reply: &Reply) -> bool
    ensures yes { result ≡ true → HasReply reply.now × (line.now ≡ text.now) }
    ensures no { result ≡ false → HasReply reply.now → line.now ≡ text.now → ⊥ }
{
    has_reply(reply) && line == text
}
