//! One call, one word of the order and one entry more than there may be: the line that has it is wrong, whatever stands after it.

use crate::cases::{good, run};
use std::process::Abort;
use std::sync::Wait;
use std::test::Fail;
use std::thread::Threads;

// The most calls of a scenario, words of its order and entries of a history.
const MOST: u32 = 200_000;

// A scenario up to its calls, in five lines.
const HEAD: &[u8] =
    b"jetlab 1\nsystem frames 8 target 8 inactive 3 store 4 critical 0 delay 3\ntask 0 band 5 active 65536 soft inactive 65536 soft\nobject 0 task 0 pages 1\nthread 0 kernel\n";

// A text, then a part so many times, then an end.
fn text(
    rt: &impl AllocGlobal,
    front: &[u8],
    part: &[u8],
    times: u32,
    end: &[u8],
) -> Result<Vec<u8>, Fail> {
    let mut text = front.to_vec(rt.alloc())?;
    for _ in 0..times {
        text.extend_from_slice(part)?;
    }
    text.extend_from_slice(end)?;
    Ok(text)
}

// The commands come to this line on the input.
fn refused<R: Threads + Wait + Abort + AllocGlobal + Sync>(
    rt: &R,
    commands: &[&[&str]],
    input: &[u8],
    line: &[u8],
) -> Result<(), Fail> {
    for words in commands {
        let mut case = good(words, input, line);
        case.status = 3;
        run(rt, &case)?;
    }
    Ok(())
}

#[test]
fn calls(rt: HostRuntime) -> Result<(), Fail> {
    let input = text(&rt, HEAD, b"info\n", MOST, b"info\norder\nend\n")?;
    let commands: [&[&str]; 3] = [&["serial"], &["migrate"], &["run"]];
    refused(&rt, &commands, &input, b"jetlab: line 200006: limit\n")
}

#[test]
fn words_of_the_order(rt: HostRuntime) -> Result<(), Fail> {
    let front = text(&rt, HEAD, b"info\n", 1, b"order")?;
    let input = text(&rt, &front, b" 0", MOST, b" 0\nend\n")?;
    let commands: [&[&str]; 3] = [&["serial"], &["migrate"], &["run"]];
    refused(&rt, &commands, &input, b"jetlab: line 7: limit\n")
}

#[test]
fn entries(rt: HostRuntime) -> Result<(), Fail> {
    let front = text(&rt, HEAD, b"info\n", MOST, b"order\nend\nhistory\n")?;
    let entry = b"0 info = frames 8 0 0 0 0 0\n";
    let input = text(&rt, &front, entry, MOST, b"0 scan = enough\ndone 200001\n")?;
    let commands: [&[&str]; 4] = [&["check"], &["table"], &["json"], &["why", "0"]];
    refused(&rt, &commands, &input, b"jetlab: line 400009: limit\n")
}
