//! Lines that are too long for an entry.

ghost use Rattle.std.specs.Prelude.{◌≡◌};
ghost use Rattle.line_text.specs.Cut.{words_of};
ghost use Rattle.history_feed.specs.LongLines.{long_done, long_fault};

use kern_ids::faults::Why;
use line_text::{Words, is_plain, is_word};

// Why a closing line is refused whose words after the first begin with these.
fn long_done(words: &mut Words<'_>, spaced: bool, digits: bool) -> Why
    ensures { result ≡ long_done words.old spaced digits }
{
    let word = match words.next() {
        Some(word) => word,
        None => return Why::Word,
    };
    if spaced || !words.is_empty() {
        return Why::Word;
    }
    if digits && is_plain(word) {
        Why::Count
    } else {
        Why::Number
    }
}

/// Why a line of more than 1,100 bytes is refused where an entry or the closing line is expected: by its
/// first 1,100 bytes, and whether a space, and whether digits alone come after them.
pub fn long_fault(head: &[u8], spaced: bool, digits: bool) -> Why
    ensures { result ≡ long_fault (words_of head.now) spaced digits }
{
    let mut words = Words::new(head);
    match words.next() {
        Some(word) if is_word(word, b"done") => long_done(&mut words, spaced, digits),
        _ => Why::Entry,
    }
}
