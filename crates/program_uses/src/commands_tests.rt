//! Commands over a source and a sink in memory: statuses and outputs.

use crate::scenarios::WRITTEN;
use commands::serial_top;
use edge::memory_sink::MemSink;
use edge::memory_source::MemSource;
use edge::words::Words;
use std::process::Abort;
use std::test::Fail;

const NEW: &[u8] =
    b"jetlab 2\nsystem frames 8 target 8 inactive 3 store 4 critical 0\ntask 0 band 5 active 65536 soft inactive 65536 soft delay 3 ageing 1\nobject 0 task 0 pages 1\nthread 0 task 0\nmap 0\nwrite 0 0 616263\nread 0 0 3\norder 0 0 0\nend\n";

const RUN: &[u8] =
    b"jetlab 1\nsystem frames 8 target 8 inactive 3 store 4 critical 0 delay 3\ntask 0 band 5 active 65536 soft inactive 65536 soft\nobject 0 task 0 pages 1\nthread 0 task 0\nmap 0\nwrite 0 0 616263\nread 0 0 3\norder 0 0 0\nend\nhistory\n0 map 0 = mapped\n0 write 0 0 616263 = wrote\n0 read 0 0 3 = bytes 616263\ndone 3\n";

// The scenario of seed 7 and two turns.
const MADE: &[u8] =
    b"jetlab 1\nsystem frames 64 target 16 inactive 16 store 64 critical 1 delay 4\ntask 0 band 0 active 24 soft inactive 12 soft\ntask 1 band 5 active 24 soft inactive 12 soft\ntask 2 band 10 active 65536 soft inactive 65536 soft internal\nobject 0 task 0 pages 1\nobject 1 task 1 pages 2\nobject 2 task 2 pages 3\nobject 3 task 0 pages 4\nobject 4 task 1 pages 1\nobject 5 task 2 pages 2\nobject 6 task 0 pages 3\nobject 7 task 1 pages 4\nobject 8 task 2 pages 1\nobject 9 task 0 pages 2\nobject 10 task 1 pages 3\nobject 11 task 2 pages 4\nobject 12 task 0 pages 1\nobject 13 task 1 pages 2\nobject 14 task 2 pages 3\nobject 15 task 0 pages 4\nobject 16 task 1 pages 1\nobject 17 task 2 pages 2\nobject 18 task 0 pages 3\nobject 19 task 1 pages 4\nobject 20 task 2 pages 1\nobject 21 task 0 pages 2\nobject 22 task 1 pages 3\nobject 23 task 2 pages 4\nobject 24 task 0 pages 1\nobject 25 task 1 pages 2\nobject 26 task 2 pages 3\nobject 27 task 0 pages 4\nobject 28 task 1 pages 1\nobject 29 task 2 pages 2\nobject 30 task 0 pages 3\nobject 31 task 1 pages 4\nobject 32 task 2 pages 1\nobject 33 task 0 pages 2\nobject 34 task 1 pages 3\nobject 35 task 2 pages 4\nobject 36 task 0 pages 1\nobject 37 task 1 pages 2\nobject 38 task 2 pages 3\nobject 39 task 0 pages 4\nthread 0 task 0\nthread 1 task 1\nthread 2 task 2\nwrite 17 5120 00000001\nthread 3 task 2\nthread 4 kernel\ntick\nthread 5 kernel\norder 4 2\nend\n";

const FAULT: &[u8] = b"jetlab: read fault\n";

// A call of the program over memory, with so many bytes a read and a write.
#[derive(Clone, Copy)]
struct Case<'a> {
    words: &'a [&'a str],
    input: &'a [u8],
    piece: usize,
    reads: &'a [u64],
    writes: &'a [u64],
    status: u8,
    text: &'a [u8],
}

fn run(rt: &(impl Abort + AllocGlobal), case: &Case<'_>) -> Result<(), Fail> {
    let alloc = rt.alloc();
    let mut words = Words::new(alloc);
    for word in case.words {
        words.push(word)?;
    }
    assert!(rt; 0 < case.piece);
    let reads = case.reads.to_vec(alloc)?;
    let writes = case.writes.to_vec(alloc)?;
    let mut source = MemSource::new(case.input.to_vec(alloc)?, case.piece, reads);
    let mut sink = MemSink::new(alloc, 2000, case.piece, writes)?;
    assert_eq!(rt;
        serial_top(alloc, &words, &mut source, &mut sink),
        case.status
    );
    assert_eq!(rt; sink.bytes(), case.text);
    Ok(())
}

fn good<'a>(words: &'a [&'a str], input: &'a [u8], text: &'a [u8]) -> Case<'a> {
    Case {
        words,
        input,
        piece: 7,
        reads: &[],
        writes: &[],
        status: 0,
        text,
    }
}

#[test]
fn pieces(rt: HostRuntime) -> Result<(), Fail> {
    for piece in [1, 2, 7, 1000] {
        for mut case in [
            good(&["serial"], WRITTEN, RUN),
            good(&["migrate"], WRITTEN, NEW),
            good(&["migrate"], NEW, NEW),
        ] {
            case.piece = piece;
            run(&rt, &case)?;
        }
    }
    Ok(())
}

// The input is read by 31 calls and the one that finds its end, the output written by 43.
#[test]
fn failures(rt: HostRuntime) -> Result<(), Fail> {
    for (call, status, text) in [(0, 4, FAULT), (1, 4, FAULT), (31, 4, FAULT), (32, 0, RUN)] {
        let reads = [call];
        let mut case = good(&["serial"], WRITTEN, text);
        case.reads = &reads;
        case.status = status;
        run(&rt, &case)?;
    }
    for (call, status, text) in [
        (0, 5, &RUN[..0]),
        (1, 5, &RUN[..7]),
        (42, 5, &RUN[..294]),
        (43, 0, RUN),
    ] {
        let writes = [call];
        let mut case = good(&["serial"], WRITTEN, text);
        case.writes = &writes;
        case.status = status;
        run(&rt, &case)?;
    }
    let mut both = good(&["serial"], WRITTEN, b"jetlab:");
    both.reads = &[1];
    both.writes = &[1];
    both.status = 5;
    run(&rt, &both)
}

// The first read would fail, and is not made.
#[test]
fn made(rt: HostRuntime) -> Result<(), Fail> {
    for (words, text, front) in [
        (&["make", "7", "2"] as &[&str], MADE, b"jetlab "),
        (
            &["trial", "7", "0"],
            b"entries 0 refused 0 purged 0 killed 0 freed 0 compressed 0\n",
            b"entries",
        ),
        (
            &["trial", "7", "2"],
            b"entries 2 refused 1 purged 0 killed 0 freed 0 compressed 0\n",
            b"entries",
        ),
    ] {
        let mut case = good(words, b"", text);
        case.reads = &[0];
        run(&rt, &case)?;
        case.writes = &[1];
        case.status = 5;
        case.text = front;
        run(&rt, &case)?;
    }
    Ok(())
}

#[test]
fn numbers(rt: HostRuntime) -> Result<(), Fail> {
    for words in [
        &["make"] as &[&str],
        &["make", "7"],
        &["make", "7", "2", "2"],
        &["make", "07", "2"],
        &["make", "7", ""],
        &["make", "7", "2 "],
        &["make", "7 2", "2"],
        &["make", "2147483648", "0"],
        &["make", "7", "200001"],
        &["trial", "18446744073709551623", "0"],
        &["trial", "-1", "0"],
        &["serial", "7", "2"],
    ] {
        let mut case = good(words, WRITTEN, b"jetlab: bad words\n");
        case.reads = &[0];
        case.status = 2;
        run(&rt, &case)?;
    }
    Ok(())
}

#[test]
fn bad(rt: HostRuntime) -> Result<(), Fail> {
    for words in [
        &[] as &[&str],
        &[""],
        &["seria"],
        &["serial", ""],
        &["serial", "x"],
        &["Migrate"],
    ] {
        let mut case = good(words, WRITTEN, b"jetlab: bad words\n");
        case.status = 2;
        run(&rt, &case)?;
    }
    for (input, text) in [
        (b"".as_slice(), b"jetlab: line 1: noend\n".as_slice()),
        (b"jetlab 3\n", b"jetlab: line 1: word\n"),
        (b"jetlab 1\nsystem frames 08\n", b"jetlab: line 2: number\n"),
        (
            b"jetlab 1\nsystem frames 4097\n",
            b"jetlab: line 2: limit\n",
        ),
    ] {
        let mut case = good(&["serial"], input, text);
        case.status = 3;
        run(&rt, &case)?;
    }
    Ok(())
}
