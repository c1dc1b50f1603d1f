//! Histories and entries that are read, and those that aren't.

use crate::faults::FAULTS;
use crate::texts::long;
use history_text::{read_entry, read_history, write_entry};
use kern_ids::faults::{ReadFault, Why};
use std::alloc::Global;
use std::process::Abort;
use std::test::Fail;

// The front of a text from line 7 on, a byte that comes so many times, the rest, and the fault.
const LONG_WORDS: [(&str, u8, usize, &str, u32, Why); 5] = [
    ("history\ndone ", b'9', 1000, "\n", 8, Why::Count),
    ("history\ndone ", b'0', 1000, "\n", 8, Why::Number),
    (
        "history\n",
        b'1',
        1000,
        " map 0 = mapped\ndone 1\n",
        8,
        Why::Entry,
    ),
    ("history\n", b'x', 600, "", 8, Why::NoEnd),
    (
        "history\n0 tick = aged",
        b' ',
        65,
        "\ndone 1\n",
        8,
        Why::Entry,
    ),
];

// The line of an entry, and what stands after it.
const LINES: [(&str, &str); 8] = [
    ("0 map 0 = mapped\n", ""),
    ("31 attach 255 = attached\n", "x"),
    ("1 write 2 4093 009f = wrote\n", "\n"),
    ("1 limits 63 65536 fatal 0 soft = bytes 00\n", "1 map"),
    ("2 tick = aged\n", ""),
    ("2 tick = aged 63 0 63\n", ""),
    ("2 jetsam = killed 3 highwater\n", ""),
    ("2 purge = refused shortage 2 1\n", ""),
];

// The text of a history, and its number of entries.
const HISTORIES: [(&str, usize); 3] = [
    ("history\ndone 0\n", 0),
    ("history\n0 map 0 = mapped\ndone 1\n", 1),
    (
        "history\n0 map 0 = mapped\n0 map 0 = nothing\n5 get 9 = state empty\ndone 3\n",
        3,
    ),
];

fn is_bad(rt: &impl Abort, alloc: Global, text: &[u8], line: u32, why: Why) {
    match read_history(alloc, text, 7) {
        Err(fault) => assert_eq!(rt; fault, ReadFault::Bad { line, why }),
        Ok(_) => assert!(rt; false),
    }
}

#[test]
fn faults(rt: HostRuntime) {
    for (text, line, why) in FAULTS {
        is_bad(&rt, rt.alloc(), text.as_bytes(), line, why);
    }
}

#[test]
fn long_words(rt: HostRuntime) -> Result<(), Fail> {
    for (front, byte, count, back, line, why) in LONG_WORDS {
        let text = long(rt.alloc(), front.as_bytes(), byte, count, back.as_bytes())?;
        is_bad(&rt, rt.alloc(), text.as_slice(), line, why);
    }
    Ok(())
}

// The line is taken and nothing after it, and the entry has this line again.
fn is_entry(rt: &impl Abort, text: &[u8], line: &str) {
    match read_entry(text) {
        Ok((entry, taken)) => {
            assert_eq!(rt; taken, line.len());
            assert_eq!(rt; write_entry(&entry).as_slice(), line.as_bytes());
        }
        Err(_) => assert!(rt; false, "{line}"),
    }
}

#[test]
fn entries(rt: HostRuntime) -> Result<(), Fail> {
    for (line, rest) in LINES {
        let text = long(rt.alloc(), line.as_bytes(), b'=', 0, rest.as_bytes())?;
        is_entry(&rt, text.as_slice(), line);
    }
    Ok(())
}

fn has_entries(rt: &impl Abort, alloc: Global, text: &str, count: usize) {
    match read_history(alloc, text.as_bytes(), 1) {
        Ok(history) => assert_eq!(rt; history.len(), count),
        Err(_) => assert!(rt; false, "{text}"),
    }
}

#[test]
fn histories(rt: HostRuntime) {
    for (text, count) in HISTORIES {
        has_entries(&rt, rt.alloc(), text, count);
    }
}
