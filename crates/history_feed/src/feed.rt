//! A reader of a history's text that is given in pieces.

ghost use Rattle.std.specs.Prelude.{◌≡◌, ◌<◌, ◌≤◌, ◌+◌, ◌++◌, ◌^◌, ℕ, List, [], length, take, None, Some, IfSome, MatchOption};
ghost use Rattle.line_text.specs.Cut.{lines_of};
ghost use Rattle.kern_ids.specs.declared.entries.Entry.{Entry as AnEntry};
ghost use Rattle.history_text.specs.EntryReading.{HasText, IsLineOf};
ghost use Rattle.history_text.specs.HistoryReading.{history_of};
ghost use Rattle.history_feed.specs.Kept.{kept_of};
ghost use Rattle.history_feed.specs.Left.{Place, said_of, left_by, rest_behind, one_byte, whole_of};
ghost use Rattle.history_feed.specs.Feeds.{first_line_of, Keeps, KeepsLeft, IsEnded, StandsFor, HasRoom, taken_of, entry_ended, IsTextOf, Gives, IsFed, IsNextLine, IsEntryLine, count_of};

use crate::expected::Expected;
use crate::kept_line::KeptLine;
use kern_ids::entries::Entry;
use kern_ids::faults::Why;
use line_text::cut_at;

/// The most entries that a history's text has.
const MOST: u32 = 200_000;

/// How many bytes of a piece were taken, and the entry whose line they end, if there is one.
#[derive(Drop)]
pub struct Fed {
    pub taken: usize,
    pub entry: Option<Entry>,
}

/// What is kept of the bytes of a history so far. It takes no memory: of a line that is not ended yet it
/// holds at most 1,100 bytes.
#[derive(Drop)]
pub struct HistoryFeed {
    first: u32,
    line: u32,
    entries: u32,
    expected: Expected,
    fault: Option<(u32, Why)>,
    rest: KeptLine,
}

impl HistoryFeed {
    /// Of no bytes; the first line will have the number `first_line`, at most 2^31.
    pub fn new(first_line: u32) -> HistoryFeed
        requires { first_line ≤ 2 ^ 31 }
        // It remembers that number.
        ensures first { first_line_of result ≡ first_line }
        // What it keeps is what no bytes leave.
        ensures stands { StandsFor result [] }
        // It has room for all bytes of a text of 2 GB.
        ensures room { (more : ℕ) → more < 2 ^ 31 → HasRoom result more }
    {
        HistoryFeed {
            first: first_line,
            line: first_line,
            entries: 0,
            expected: Expected::Opening,
            fault: None,
            rest: KeptLine::new(),
        }
    }

    // The line after the one that is kept begins.
    fn begin_line(&mut self, expected: Expected)
        requires { self.old.line + 1 < 2 ^ 32 }
        ensures same { (self.new.first ≡ self.old.first) × (self.new.entries ≡ self.old.entries) × (self.new.fault ≡ self.old.fault) }
        ensures line { self.new.line ≡ self.old.line + 1 }
        ensures expected { self.new.expected ≡ expected }
        ensures rest { self.new.rest ≡ kept_of [] }
        ensures empty { self.new.rest.len ≡ 0 }
    {
        self.line += 1;
        self.expected = expected;
        self.rest.clear();
    }

    // The line that is kept is ended: its entry, if it is one in its place.
    fn end_line(&mut self) -> Option<Entry>
        requires { self.old.line + 1 < 2 ^ 32 }
        ensures text { IfSome result HasText }
        ensures ended { (p : Place) (line : List ℕ) → Keeps self.old p line → IsEnded self.new result p (said_of p.next (length p.entries) line) }
        ensures first { self.new.first ≡ self.old.first }
        ensures line { self.new.line ≤ self.old.line + 1 }
        ensures empty { self.new.fault ≡ None → self.new.rest.len ≡ 0 }
    {
        match self.expected {
            Expected::Opening => {
                if !self.rest.is_opening() {
                    self.fault = Some((self.line, Why::Word));
                    return None;
                }
                self.begin_line(Expected::Entries);
                None
            }
            Expected::Entries => match self.rest.says(self.entries) {
                Ok(Some(entry)) => {
                    self.entries += 1;
                    self.begin_line(Expected::Entries);
                    Some(entry)
                }
                Ok(None) => {
                    self.begin_line(Expected::Nothing);
                    None
                }
                Err(why) => {
                    self.fault = Some((self.line, why));
                    None
                }
            },
            Expected::Nothing => {
                self.fault = Some((self.line, Why::AfterEnd));
                None
            }
        }
    }

    // Bytes with no line feed come, one at least.
    fn go_on(&mut self, part: &[u8])
        requires { self.old.rest.len + length part.now < 2 ^ 64 }
        ensures on { (p : Place) (line : List ℕ) → Keeps self.old p line → KeepsLeft self.new (one_byte p.next p) (line ++ part.now) }
        ensures first { self.new.first ≡ self.old.first }
        ensures line { self.new.line ≡ self.old.line }
        ensures len { self.new.rest.len ≤ self.old.rest.len + length part.now }
    {
        match self.expected {
            Expected::Opening => self.rest.push(part),
            Expected::Entries => self.rest.push(part),
            Expected::Nothing => self.fault = Some((self.line, Why::AfterEnd)),
        }
    }

    // Takes bytes where there is no fault yet.
    fn take(&mut self, piece: &[u8]) -> Fed
        requires sound { self.old.fault ≡ None }
        requires room { HasRoom self.old (length piece.now) }
        ensures taken { result.taken ≡ taken_of self.old piece.now }
        ensures within { result.taken ≤ length piece.now }
        ensures some { 0 < length piece.now → 0 < result.taken }
        ensures room { (more : ℕ) → HasRoom self.old (result.taken + more) → HasRoom self.new more }
        ensures first { self.new.first ≡ self.old.first }
        ensures text { IfSome result.entry HasText }
        ensures fed { (text : List ℕ) → StandsFor self.old text → IsFed self.old self.new result.entry text piece.now (take result.taken piece.now) }
    {
        if piece.is_empty() {
            return Fed {
                taken: 0,
                entry: None,
            };
        }
        match cut_at(piece, b'\n') {
            Some((part, _)) => {
                self.rest.push(part);
                let entry = self.end_line();
                Fed {
                    taken: part.len() + 1,
                    entry,
                }
            }
            None => {
                self.go_on(piece);
                Fed {
                    taken: piece.len(),
                    entry: None,
                }
            }
        }
    }

    /// Takes bytes of the piece up to the end of one line, or all of them where no line is ended or there was
    /// a fault before. The others are to be fed again.
    pub fn feed(&mut self, piece: &[u8]) -> Fed
        requires { HasRoom self.old (length piece.now) }

        // How many bytes are taken: none only of an empty piece.
        ensures taken { result.taken ≡ taken_of self.old piece.now }
        ensures within { result.taken ≤ length piece.now }
        ensures some { 0 < length piece.now → 0 < result.taken }
        // Where there was room for more bytes, there still is.
        ensures room { (more : ℕ) → HasRoom self.old (result.taken + more) → HasRoom self.new more }

        // Whatever bytes it represented, it represents those and the bytes taken.
        ensures first { first_line_of self.new ≡ first_line_of self.old }
        ensures stands { (text : List ℕ) → StandsFor self.old text → StandsFor self.new (text ++ take result.taken piece.now) }

        // The entry is that of the line that is ended, if it is one in its place and there is no fault.
        ensures entry { (text : List ℕ) → StandsFor self.old text → result.entry ≡ entry_ended (left_by (first_line_of self.old) text) (rest_behind text) (lines_of piece.now) }
        // Its text is that line.
        ensures written { (text : List ℕ) → StandsFor self.old text → IfSome result.entry (IsTextOf (rest_behind text ++ take result.taken piece.now)) }
        ensures text { IfSome result.entry HasText }
        // By it the entries grow.
        ensures gives { (text : List ℕ) → StandsFor self.old text → Gives result.entry (left_by (first_line_of self.old) text) (left_by (first_line_of self.old) (text ++ take result.taken piece.now)) }
    {
        match self.fault {
            Some(_) => Fed {
                taken: piece.len(),
                entry: None,
            },
            None => self.take(piece),
        }
    }

    /// The line that the piece begins with, without its line feed, where the piece ends it, no byte of it
    /// came before, and an entry may be in its place. None where there is no such line.
    pub fn next_line<'a>(&self, piece: &'a [u8]) -> Option<&'a [u8]>
        ensures { MatchOption result ((line : List ℕ) → IsNextLine self.now piece.now line → ⊥) (λ line. IsNextLine self.now piece.now line.now) }
    {
        if self.fault.is_some() {
            return None;
        }
        if self.rest.len != 0 {
            return None;
        }
        if MOST <= self.entries {
            return None;
        }
        match self.expected {
            Expected::Entries => match cut_at(piece, b'\n') {
                Some((line, _)) => Some(line),
                None => None,
            },
            _ => None,
        }
    }

    /// Takes that line with its end, where it is known that it is an entry's: as `feed` does, but it doesn't
    /// look at it. The number of the bytes that are taken.
    pub fn pass(&mut self, _piece: &[u8], line: &[u8]) -> usize
        requires next { IsNextLine self.old _piece.now line.now }
        requires entry { IsEntryLine line.now }
        requires room { HasRoom self.old (length _piece.now) }
        ensures taken { result ≡ length line.now + 1 }
        ensures within { result ≤ length _piece.now }
        // Where there was room for more bytes, there still is.
        ensures room { (more : ℕ) → HasRoom self.old (result + more) → HasRoom self.new more }
        ensures first { first_line_of self.new ≡ first_line_of self.old }
        // Whatever bytes it represented, it represents those and the bytes taken,
        ensures stands { (text : List ℕ) → StandsFor self.old text → StandsFor self.new (text ++ take result _piece.now) }
        // and by the entry of the line the entries grow.
        ensures gives { (text : List ℕ) (e : AnEntry) → IsLineOf line.now e → StandsFor self.old text → Gives (Some e) (left_by (first_line_of self.old) text) (left_by (first_line_of self.old) (text ++ take result _piece.now)) }
    {
        self.entries += 1;
        self.begin_line(Expected::Entries);
        line.len() + 1
    }

    /// The number of entries of the text, or the line of its first fault and why it is refused.
    pub fn finish(self) -> Result<u32, (u32, Why)>
        ensures exact { (text : List ℕ) → StandsFor self text → result ≡ count_of (history_of (first_line_of self) text) }
        // What a text is as a whole is what it leaves where it stops.
        ensures whole { (text : List ℕ) → history_of (first_line_of self) text ≡ whole_of (left_by (first_line_of self) text) }
    {
        match self.fault {
            Some(fault) => Err(fault),
            None => match self.expected {
                Expected::Opening => Err((self.line, Why::NoEnd)),
                Expected::Entries => Err((self.line, Why::NoEnd)),
                Expected::Nothing => Ok(self.entries),
            },
        }
    }
}
