//! Histories that are fed in pieces of several sizes.

ghost use Rattle.std.specs.Prelude.{◌<◌, ◌≤◌, ◌^◌, length};

use crate::faults::FAULTS;
use crate::texts::long;
use history_feed::HistoryFeed;
use history_text::write_entry;
use kern_ids::faults::Why;
use std::alloc::Global;
use std::process::Abort;
use std::test::Fail;

const LINES: &str =
    "0 map 0 = mapped\n0 write 0 0 616263 = wrote\n0 set 0 1 = old nonvolatile\n1 force = purged 0\n0 set 0 0 = old empty\n0 read 0 0 3 = bytes 000000\n";

// The front of a text, a byte that comes so many times, the rest, and the fault of line 8.
const LONG_LINES: [(&str, u8, usize, &str, Why); 14] = [
    ("history\ndone ", b'9', 1095, "\n", Why::Count),
    ("history\ndone ", b'9', 1096, "\n", Why::Count),
    ("history\ndone ", b'9', 4000, "\n", Why::Count),
    ("history\ndone ", b'0', 1095, "\n", Why::Number),
    ("history\ndone ", b'0', 1096, "\n", Why::Number),
    ("history\ndone ", b'9', 2000, "x\n", Why::Number),
    ("history\ndone x", b'9', 2000, "\n", Why::Number),
    ("history\ndone ", b'9', 1095, " \n", Why::Word),
    ("history\ndone 1 ", b'9', 2000, "\n", Why::Word),
    ("history\ndone ", b' ', 2000, "\n", Why::Word),
    ("history\ndone", b'9', 2000, "\n", Why::Entry),
    ("history\n", b'x', 2000, "\n", Why::Entry),
    (
        "history\n0 read 0 0 1 = bytes 6",
        b'1',
        2001,
        "\n",
        Why::Entry,
    ),
    ("history\n", b'x', 2000, "", Why::NoEnd),
];

// Where the piece ends in which this byte is: there is a cut at one place, and one at each multiple of the size.
fn piece_end(at: usize, cut: usize, size: usize, len: usize) -> usize
    requires inside { at < len }
    requires few { len < 2 ^ 31 }
    requires some { 0 < size }
    requires small { size < 2 ^ 31 }
    ensures after { at < result }
    ensures within { result ≤ len }
{
    if at < cut && cut <= len {
        return cut;
    }
    len.min(at - at % size + size)
}

// Feeds a text whose first line is line 7: how it ends, and the texts of the entries that are given.
fn fed(
    alloc: Global,
    text: &[u8],
    cut: usize,
    size: usize,
) -> Result<(Result<u32, (u32, Why)>, Vec<u8>), Fail>
    requires some { 0 < size }
    requires small { size < 2 ^ 31 }
{
    let mut entries = Vec::new(alloc);
    let mut feed = HistoryFeed::new(7);
    if text.len() >= 0x4000_0000 {
        return Err("a short text")?;
    }
    let mut at = 0;
    'bytes: while at < text.len() {
        let end = piece_end(at, cut, size, text.len());
        let taken = feed.feed(&text[at..end]);
        at += taken.taken;
        if let Some(entry) = taken.entry {
            entries
                .extend_from_slice(write_entry(&entry).as_slice())
                .map_err(|_| "an entry")?;
        }
    }
    Ok((feed.finish(), entries))
}

// The fault of a text, in pieces of several sizes.
fn is_bad(rt: &impl Abort, alloc: Global, text: &[u8], line: u32, why: Why) -> Result<(), Fail> {
    for size in [1, 2, 7, 5000] {
        let (end, _) = fed(alloc, text, 0, size)?;
        assert_eq!(rt; end, Err((line, why)));
    }
    Ok(())
}

// The text is whole, and its entries are the lines.
fn is_whole(
    rt: &impl Abort,
    alloc: Global,
    text: &[u8],
    cut: usize,
    size: usize,
) -> Result<(), Fail>
    requires some { 0 < size }
    requires small { size < 2 ^ 31 }
{
    let (end, entries) = fed(alloc, text, cut, size)?;
    assert_eq!(rt; end, Ok(6));
    assert_eq!(rt; entries.as_slice(), LINES.as_bytes());
    Ok(())
}

#[test]
fn cuts(rt: HostRuntime) -> Result<(), Fail> {
    let alloc = rt.alloc();
    let front = long(alloc, b"history\n", 0, 0, LINES.as_bytes())?;
    let text = long(alloc, front.as_slice(), 0, 0, b"done 6\n")?;
    for size in [1, 2, 3, 7, 5000] {
        is_whole(&rt, alloc, text.as_slice(), 0, size)?;
    }
    for cut in 0..text.len() {
        is_whole(&rt, alloc, text.as_slice(), cut, 5000)?;
    }
    Ok(())
}

#[test]
fn faults(rt: HostRuntime) -> Result<(), Fail> {
    for (text, line, why) in FAULTS {
        is_bad(&rt, rt.alloc(), text.as_bytes(), line, why)?;
    }
    Ok(())
}

#[test]
fn long_lines(rt: HostRuntime) -> Result<(), Fail> {
    let alloc = rt.alloc();
    for (front, byte, count, back, why) in LONG_LINES {
        let text = long(alloc, front.as_bytes(), byte, count, back.as_bytes())?;
        is_bad(&rt, alloc, text.as_slice(), 8, why)?;
    }
    let opening = long(alloc, b"history", b'y', 2000, b"\n")?;
    is_bad(&rt, alloc, opening.as_slice(), 7, Why::Word)
}

// The longest line of an entry.
#[test]
fn longest_line(rt: HostRuntime) -> Result<(), Fail> {
    let alloc = rt.alloc();
    let front = b"history\n31 write 255 4294967295 ".as_slice();
    let written = long(alloc, front, b'f', 512, b" = bytes ")?;
    let text = long(alloc, written.as_slice(), b'0', 512, b"\ndone 1\n")?;
    for size in [1, 100, 5000] {
        let (end, entries) = fed(alloc, text.as_slice(), 0, size)?;
        assert_eq!(rt; end, Ok(1));
        assert_eq!(rt; entries.len(), 1058);
    }
    Ok(())
}
