//! Each exit status but 9, by each command that reads. Status 9 is out of memory, which no test here can bring about:
//! tests/refuse does.

use crate::cases::{Case, answer, good, run};
use crate::endless::Endless;
use crate::texts::{FIRST, FIRST_RUN, OTHER_REPLY, PURGED, READ_FAULT};
use edge::memory_sink::MemSink;
use std::process::Abort;
use std::sync::Wait;
use std::test::Fail;
use std::thread::Threads;

// The commands that read a scenario.
const ON_SCENARIOS: [&[&str]; 3] = [&["serial"], &["migrate"], &["run"]];

// The commands that read a scenario with its history.
const ON_HISTORIES: [&[&str]; 4] = [&["check"], &["table"], &["json"], &["why", "3"]];

// The case with other words.
fn with_words<'a>(like: &Case<'a>, words: &'a [&'a str]) -> Case<'a> {
    Case {
        words,
        input: like.input,
        piece: like.piece,
        read: like.read,
        write: like.write,
        status: like.status,
        text: like.text,
    }
}

// A call of each of these commands on one input comes to one answer.
fn run_each<'a, R: Threads + Wait + Abort + AllocGlobal + Sync>(
    rt: &R,
    commands: &[&'a [&'a str]],
    like: &Case<'a>,
) -> Result<(), Fail> {
    for words in commands {
        run(rt, &with_words(like, *words))?;
    }
    Ok(())
}

// An input, and what it comes to.
fn input_case<'a>(input: &'a [u8], status: u8, text: &'a [u8]) -> Case<'a> {
    let mut case = good(&[], input, text);
    case.status = status;
    case
}

// A case whose first read fails.
fn unread(input: &[u8]) -> Case<'_> {
    let mut case = input_case(input, 4, READ_FAULT);
    case.read = Some(0);
    case
}

// A case whose first write fails.
fn unwritten(input: &[u8]) -> Case<'_> {
    let mut case = input_case(input, 5, b"");
    case.write = Some(0);
    case
}

#[test]
fn on_scenarios(rt: HostRuntime) -> Result<(), Fail> {
    for case in [
        input_case(b"", 3, b"jetlab: line 1: noend\n"),
        input_case(FIRST_RUN, 3, b"jetlab: line 11: afterend\n"),
        unread(FIRST),
        unwritten(FIRST),
        unwritten(b""),
    ] {
        run_each(&rt, &ON_SCENARIOS, &case)?;
    }
    Ok(())
}

#[test]
fn on_histories(rt: HostRuntime) -> Result<(), Fail> {
    for case in [
        input_case(FIRST, 3, b"jetlab: line 11: noend\n"),
        unread(PURGED),
        unwritten(PURGED),
        unwritten(OTHER_REPLY),
        input_case(OTHER_REPLY, 6, b"entry 4: expected old empty\n"),
    ] {
        run_each(&rt, &ON_HISTORIES, &case)?;
    }
    run_each(
        &rt,
        &[&["why", "6"]],
        &input_case(PURGED, 8, b"jetlab: no entry 6 of 6\n"),
    )
}

#[test]
fn on_good_inputs(rt: HostRuntime) -> Result<(), Fail> {
    run_each(
        &rt,
        &[&["serial"], &["run"]],
        &input_case(FIRST, 0, FIRST_RUN),
    )?;
    run_each(&rt, &[&["check"]], &input_case(PURGED, 0, b"legal\n"))
}

// Words too many, and words that are wrong. Nothing is read.
#[test]
fn on_bad_words(rt: HostRuntime) -> Result<(), Fail> {
    let words: [&[&str]; 9] = [
        &["serial", "x"],
        &["migrate", ""],
        &["run", "x"],
        &["check", "3"],
        &["table", "x"],
        &["json", "x"],
        &["why"],
        &["why", "03"],
        &["why", "3", "x"],
    ];
    let mut like = input_case(PURGED, 2, b"jetlab: bad words\n");
    like.read = Some(0);
    run_each(&rt, &words, &like)
}

// An input that is longer than the command reads.
fn run_endless<R: Threads + Wait + Abort + AllocGlobal + Sync>(
    rt: &R,
    words: &[&str],
    text: &[u8],
) -> Result<(), Fail> {
    let alloc = rt.alloc();
    let mut source = Endless::new();
    let mut sink = MemSink::new(alloc, 2000, 4096, Vec::new(alloc))?;
    assert_eq!(rt; answer(rt, words, &mut source, &mut sink)?, 7, "{words:?}");
    assert_eq!(rt; sink.bytes(), text, "{words:?}");
    Ok(())
}

#[test]
fn on_endless_inputs(rt: HostRuntime) -> Result<(), Fail> {
    for words in ON_SCENARIOS {
        run_endless(&rt, words, b"jetlab: more than 67108864 bytes\n")?;
    }
    run_endless(&rt, &["check"], b"jetlab: more than 268435456 bytes\n")
}
