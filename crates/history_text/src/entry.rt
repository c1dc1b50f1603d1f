//! Reading an entry.

ghost use Rattle.std.specs.Prelude.{◌≡◌, ◌∷◌, ℕ, MatchResult, IfOk, OnErr, Ok, Err};
ghost use Rattle.kern_ids.specs.Entries.{IsSound};
ghost use Rattle.kern_ids.specs.declared.entries.Entry.{Entry};
ghost use Rattle.line_text.specs.Cut.{words_of};
ghost use Rattle.history_text.specs.EntryReading.{entry_parts, entry_of, HasText, BeginsWith};

use crate::reply_reading::read_reply;
use crate::sign::cut_at_sign;
use kern_ids::entries::Entry;
use kern_ids::faults::Why;
use line_text::{Verb, Words, cut_at, read_call};

/// The bytes do not begin with the text of an entry.
#[derive(Clone, Copy, PartialEq, Eq, Debug)]
pub struct TextFault;

// An entry by its parts before and after the sign.
#[tactic(auto, unfolding(crate::specs::EntryReading::entry_parts))]
fn read_parts(front: &[u8], back: &[u8]) -> Result<Entry, Why>
    ensures { MatchResult result (λ e. entry_parts (words_of front.now) (words_of back.now) ≡ Ok e) (λ why. entry_parts (words_of front.now) (words_of back.now) ≡ Err why) }
{
    let mut words = Words::new(front);
    let who = words.thread(32)?;
    let word = match words.next() {
        Some(word) => word,
        None => return Err(Why::Word),
    };
    let verb = match Verb::of_word(word) {
        Some(verb) => verb,
        None => return Err(Why::Word),
    };
    let call = read_call(verb, &mut words, 64, 256)?;
    let reply = read_reply(&mut Words::new(back))?;
    Ok(Entry { who, call, reply })
}

/// The entry that a line is, without its line feed.
#[tactic(auto, unfolding(crate::specs::EntryReading::entry_of))]
pub fn read_line(line: &[u8]) -> Result<Entry, Why>
    ensures { MatchResult result (λ e. entry_of line.now ≡ Ok e) (λ why. entry_of line.now ≡ Err why) }
{
    match cut_at_sign(line) {
        Some((front, back)) => read_parts(front, back),
        None => Err(Why::Word),
    }
}

/// The entry whose text the bytes begin with, and the length of that text. Takes no memory.
pub fn read_entry(bytes: &[u8]) -> Result<(Entry, usize), TextFault>
    // The bytes begin with the text of that entry, and the text is so long.
    ensures written { IfOk result (λ r. BeginsWith bytes.now r.0 r.1) }
    // The entry is one that has a text.
    ensures text { IfOk result (λ r. HasText r.0) }
    // In short: it is sound.
    ensures sound { IfOk result (λ r. IsSound r.0) }
    // An entry whose text the bytes begin with is the one that is read.
    ensures again { (e : Entry) (n : ℕ) → HasText e → BeginsWith bytes.now e n → result ≡ Ok (e, n) }
    // A fault comes only where the bytes begin with no entry's text.
    ensures none { OnErr result ((e : Entry) (n : ℕ) → HasText e → BeginsWith bytes.now e n → ⊥) }
{
    match cut_at(bytes, b'\n') {
        Some((line, _)) => match read_line(line) {
            Ok(entry) => Ok((entry, line.len() + 1)),
            Err(_) => Err(TextFault),
        },
        None => Err(TextFault),
    }
}
