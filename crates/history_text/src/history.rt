//! Reading a history line by line.

ghost use Rattle.std.specs.Prelude.{◌≡◌, ◌≤◌, ◌<◌, ◌+◌, ◌∷◌, ◌++◌, ◌^◌, [], List, length, All, MatchResult, OnOk, IfOk, IfSome, Ok, Err, Some, None};
ghost use Rattle.std.specs.Fmt.{decimal};
ghost use Rattle.std.specs.Str.{bytes_eq};
ghost use Rattle.kern_ids.specs.Entries.{IsSound};
ghost use Rattle.kern_ids.specs.declared.entries.Entry.{Entry};
ghost use Rattle.line_text.specs.Cut.{words_of, lines_of};
ghost use Rattle.history_text.specs.History.{history_text};
ghost use Rattle.history_text.specs.EntryReading.{HasText};
ghost use Rattle.history_text.specs.HistoryReading.{closing_words, line_says, closed, entries_from, opened, history_of, ReadFails, ReadGives};

use crate::entry::read_line;
use kern_ids::entries::{Entry, EntryList, NoMemory};
use kern_ids::faults::{ReadFault, Why};
use kern_ids::lines::LineBuf;
use line_text::{Words, cut_at, is_plain, is_word, push_decimal};
use std::alloc::Global;

const MOST: usize = 200_000;

// Whether a word is this number.
fn is_decimal(word: &[u8], n: usize) -> bool
    ensures { result ≡ bytes_eq word.now (decimal n) }
{
    let mut line = LineBuf::new();
    push_decimal(&mut line, n as u64);
    word == line.as_slice()
}

// The closing line after its first word.
#[tactic(auto, unfolding(crate::specs::HistoryReading::closing_words))]
fn closing_words(count: usize, words: &mut Words<'_>) -> Result<(), Why>
    ensures { MatchResult result (λ _. closing_words count words.old ≡ Ok None) (λ e. closing_words count words.old ≡ Err e) }
{
    let word = match words.next() {
        Some(word) => word,
        None => return Err(Why::Word),
    };
    words.finished()?;
    if !is_plain(word) {
        return Err(Why::Number);
    }
    if is_decimal(word, count) {
        Ok(())
    } else {
        Err(Why::Count)
    }
}

/// What a line after the opening one is, where so many entries are before it: an entry, or None for the
/// closing line. The line is without its line feed.
#[tactic(auto, unfolding(crate::specs::HistoryReading::line_says))]
pub fn take_line(count: usize, line: &[u8]) -> Result<Option<Entry>, Why>
    ensures value { MatchResult result (λ said. line_says count line.now ≡ Ok said) (λ e. line_says count line.now ≡ Err e) }
    ensures room { IfOk result (λ said. IfSome said (λ _. count < 200000)) }
{
    let mut words = Words::new(line);
    let word = match words.next() {
        Some(word) => word,
        None => return Err(Why::Word),
    };
    if is_word(word, b"done") {
        closing_words(count, &mut words)?;
        return Ok(None);
    }
    match read_line(line) {
        Ok(entry) if count < MOST => Ok(Some(entry)),
        Ok(_) => Err(Why::Limit),
        Err(_) => Err(Why::Entry),
    }
}

// A line of the text, and what comes after it.
fn next_line(rest: &[u8], line: u32) -> Result<(&[u8], &[u8]), ReadFault>
    ensures value { MatchResult result (λ parts. lines_of rest.now ≡ parts.0.now ∷ lines_of parts.1.now) (λ e. (lines_of rest.now ≡ rest.now ∷ []) × (e ≡ ReadFault.Bad line Why.NoEnd)) }
    ensures shorter { IfOk result (λ parts. length parts.1.now < length rest.now) }
{
    match cut_at(rest, b'\n') {
        Some(parts) => Ok(parts),
        None => Err(ReadFault::Bad {
            line,
            why: Why::NoEnd,
        }),
    }
}

// One entry more.
fn add(history: &mut EntryList, entry: Entry) -> Result<(), NoMemory>
    ensures { OnOk result (history.new.list ≡ history.old.list ++ entry ∷ []) }
{
    history.reserve(1)?;
    history.push(entry);
    Ok(())
}

// The history, if nothing follows it.
fn close(history: EntryList, rest: &[u8], line: u32) -> Result<EntryList, ReadFault>
    ensures { ReadGives result (closed history.list line (lines_of rest.now)) }
{
    if rest.is_empty() {
        Ok(history)
    } else {
        Err(ReadFault::Bad {
            line,
            why: Why::AfterEnd,
        })
    }
}

// The opening line: what comes after it.
#[tactic(auto, unfolding(crate::specs::HistoryReading::opened))]
fn open(text: &[u8], line: u32) -> Result<&[u8], ReadFault>
    requires { line ≤ 2 ^ 31 }
    ensures value { MatchResult result
        (λ rest. history_of line text.now ≡ entries_from [] (line + 1) (lines_of rest.now))
        (λ e. ReadFails e (history_of line text.now)) }
    ensures shorter { IfOk result (λ rest. length rest.now < length text.now) }
{
    let (opening, rest) = match next_line(text, line) {
        Ok(parts) => parts,
        Err(fault) => return Err(fault),
    };
    if is_word(opening, b"history") {
        Ok(rest)
    } else {
        Err(ReadFault::Bad {
            line,
            why: Why::Word,
        })
    }
}

// The history that a text is, or its first fault.
fn read_whole(alloc: Global, text: &[u8], first_line: u32) -> Result<EntryList, ReadFault>
    requires { first_line ≤ 2 ^ 31 }
    ensures { ReadGives result (history_of first_line text.now) }
{
    let mut rest = match open(text, first_line) {
        Ok(rest) => rest,
        Err(fault) => return Err(fault),
    };
    let mut history = EntryList::new(alloc);
    let mut line = first_line + 1;
    'lines: loop {
        let (bytes, others) = match next_line(rest, line) {
            Ok(parts) => parts,
            Err(fault) => return Err(fault),
        };
        match take_line(history.len(), bytes) {
            Ok(Some(entry)) => add(&mut history, entry)?,
            Ok(None) => return close(history, others, line + 1),
            Err(why) => return Err(ReadFault::Bad { line, why }),
        }
        line += 1;
        rest = others;
    }
}

/// The history that a text is, or its first fault; its first line has the number `first_line`, at most 2^31.
/// A text is read exactly where it is that of at most 200,000 sound entries, unless memory runs out.
pub fn read_history(alloc: Global, bytes: &[u8], first_line: u32) -> Result<EntryList, ReadFault>
    requires { first_line ≤ 2 ^ 31 }
    // Which entries or which fault it is.
    ensures exact { ReadGives result (history_of first_line bytes.now) }
    // What is read is the text of those entries.
    ensures written { IfOk result (λ h. bytes.now ≡ history_text h.list) }
    // Each of them has a text.
    ensures texts { IfOk result (λ h. All HasText h.list) }
    // In short: each is sound.
    ensures sound { IfOk result (λ h. All IsSound h.list) }
    // They are not too many.
    ensures few { IfOk result (λ h. length h.list ≤ 200000) }
    // The text of such entries is read as them.
    ensures again { (h : List Entry) → All HasText h → length h ≤ 200000 → bytes.now ≡ history_text h → ReadGives result (Ok h) }
{
    read_whole(alloc, bytes, first_line)
}
