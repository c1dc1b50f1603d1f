//! What is kept of a line that is not ended yet.

ghost use Rattle.std.specs.Prelude.{◌≡◌, ◌<◌, ◌+◌, ◌++◌, ◌^◌, ℕ, List, [], length, IfOk, IfSome, codes, ◌==◌, ◌||◌, ◌&&◌};
ghost use Rattle.std.specs.List.{list_any, list_all};
ghost use Rattle.std.specs.Char.{is_ascii_digit};
ghost use Rattle.std.specs.Str.{bytes_eq};
ghost use Rattle.history_text.specs.EntryReading.{HasText};
ghost use Rattle.history_text.specs.HistoryReading.{line_says};
ghost use Rattle.history_feed.specs.Kept.{kept_of};

use crate::long_line::long_fault;
use history_text::take_line;
use kern_ids::entries::Entry;
use kern_ids::faults::Why;
use kern_ids::lines::LineBuf;
use line_text::is_word;

const MOST: usize = 1100;

/// The first 1,100 bytes of a line, its length, and of what comes after those bytes whether there is a space
/// and whether there are digits alone.
#[derive(Drop)]
pub struct KeptLine {
    pub head: LineBuf,
    pub len: usize,
    pub spaced: bool,
    pub digits: bool,
}

fn has_space(bytes: &[u8]) -> bool
    ensures { result ≡ list_any (λ b. b == 32) bytes.now }
{
    bytes.iter().any(|b| *b == b' ')
}

fn all_digits(bytes: &[u8]) -> bool
    ensures { result ≡ list_all is_ascii_digit bytes.now }
{
    bytes.iter().all(|b| b.is_ascii_digit())
}

// Whether there was a space before, or is one in these bytes.
fn spaced_with(before: bool, bytes: &[u8]) -> bool
    ensures { result ≡ (before || list_any (λ b. b == 32) bytes.now) }
{
    before || has_space(bytes)
}

// Whether there were digits alone before, and are in these bytes.
fn digits_with(before: bool, bytes: &[u8]) -> bool
    ensures { result ≡ (before && list_all is_ascii_digit bytes.now) }
{
    before && all_digits(bytes)
}

impl KeptLine {
    /// Of an empty line.
    #[tactic(auto, unfolding(crate::specs::Kept::kept_of))]
    pub fn new() -> KeptLine
        ensures { result ≡ kept_of [] }
    {
        KeptLine {
            head: LineBuf::new(),
            len: 0,
            spaced: false,
            digits: true,
        }
    }

    /// A new line begins.
    #[tactic(auto, unfolding(crate::specs::Kept::kept_of))]
    pub fn clear(&mut self)
        ensures value { self.new ≡ kept_of [] }
        ensures empty { self.new.len ≡ 0 }
    {
        self.head.clear();
        self.len = 0;
        self.spaced = false;
        self.digits = true;
    }

    /// The line goes on.
    pub fn push(&mut self, part: &[u8])
        requires { self.old.len + length part.now < 2 ^ 64 }
        ensures value { (line : List ℕ) → self.old ≡ kept_of line → self.new ≡ kept_of (line ++ part.now) }
        ensures len { self.new.len ≡ self.old.len + length part.now }
    {
        let room = MOST - self.head.as_slice().len();
        let (front, back) = part.split_at(room.min(part.len()));
        self.head.push(front);
        self.len += part.len();
        self.spaced = spaced_with(self.spaced, back);
        self.digits = digits_with(self.digits, back);
    }

    /// Whether the line opens a history.
    pub fn is_opening(&self) -> bool
        ensures { (line : List ℕ) → self.now ≡ kept_of line → result ≡ bytes_eq line (codes "history") }
    {
        is_word(self.head.as_slice(), b"history")
    }

    /// What the line is after so many entries.
    pub fn says(&self, count: u32) -> Result<Option<Entry>, Why>
        ensures value { (line : List ℕ) → self.now ≡ kept_of line → line_says count line ≡ result }
        ensures room { IfOk result (λ said. IfSome said (λ _. count < 200000)) }
        ensures text { IfOk result (λ said. IfSome said HasText) }
    {
        if self.len <= MOST {
            take_line(count as usize, self.head.as_slice())
        } else {
            Err(long_fault(self.head.as_slice(), self.spaced, self.digits))
        }
    }
}
