//! Inputs and outputs that come in small pieces, and reads and writes that fail: the first, the second, the last, and the one
//! after it, which is never made.

use crate::cases::{Case, good, run};
use crate::texts::{FIRST, FIRST_RUN, PURGED, PURGED_TABLE, PURGED_WHY, READ_FAULT};
use std::process::Abort;
use std::sync::Wait;
use std::test::Fail;
use std::thread::Threads;

// The case with a read that fails, if it is made. The reads are one a piece, and one that finds the end.
fn with_failed_read<'a>(whole: &Case<'a>, read: u64) -> Case<'a> {
    let pieces = calls(whole.input, whole.piece);
    let mut case = *whole;
    case.read = Some(read);
    if read <= pieces {
        case.status = 4;
        case.text = READ_FAULT;
    }
    case
}

// The case with a write that fails, if it is made. What the writes before it took was written.
fn with_failed_write<'a>(whole: &Case<'a>, write: u64) -> Case<'a> {
    let pieces = calls(whole.text, whole.piece);
    let mut case = *whole;
    case.write = Some(write);
    if write < pieces {
        case.status = 5;
        case.text = front(whole.text, write, whole.piece);
    }
    case
}

// The number of pieces of a text.
fn calls(text: &[u8], piece: usize) -> u64 {
    if piece == 0 {
        0
    } else {
        text.len().div_ceil(piece) as u64
    }
}

// The first so many pieces of a text.
fn front(text: &[u8], pieces: u64, piece: usize) -> &[u8] {
    let bytes = (pieces as usize).saturating_mul(piece).min(text.len());
    &text[..bytes]
}

// Runs a case with each of these reads failing, then with each of these writes.
fn run_failing<R: Threads + Wait + Abort + AllocGlobal + Sync>(
    rt: &R,
    whole: &Case<'_>,
) -> Result<(), Fail> {
    let reads = calls(whole.input, whole.piece);
    for read in [0, 1, reads, reads.saturating_add(1)] {
        run(rt, &with_failed_read(whole, read))?;
    }
    let writes = calls(whole.text, whole.piece);
    for write in [0, 1, writes.saturating_sub(1), writes] {
        run(rt, &with_failed_write(whole, write))?;
    }
    Ok(())
}

// Runs a case in pieces of each size, whole and with ends that fail.
fn run_in_pieces<R: Threads + Wait + Abort + AllocGlobal + Sync>(
    rt: &R,
    case: &Case<'_>,
) -> Result<(), Fail> {
    for piece in [1, 2, 7] {
        let mut whole = *case;
        whole.piece = piece;
        run(rt, &whole)?;
        run_failing(rt, &whole)?;
    }
    Ok(())
}

#[test]
fn serial(rt: HostRuntime) -> Result<(), Fail> {
    run_in_pieces(&rt, &good(&["serial"], FIRST, FIRST_RUN))
}

#[test]
fn run_by_threads(rt: HostRuntime) -> Result<(), Fail> {
    run_in_pieces(&rt, &good(&["run"], FIRST, FIRST_RUN))
}

#[test]
fn histories(rt: HostRuntime) -> Result<(), Fail> {
    for case in [
        good(&["check"], PURGED, b"legal\n"),
        good(&["table"], PURGED, PURGED_TABLE),
        good(&["why", "3"], PURGED, PURGED_WHY),
    ] {
        run_in_pieces(&rt, &case)?;
    }
    Ok(())
}

// A read and a write fail: what could be written of the line of the failed read was written.
#[test]
fn both_ends(rt: HostRuntime) -> Result<(), Fail> {
    for words in [
        &["serial"] as &[&str],
        &["run"],
        &["check"],
        &["table"],
        &["why", "3"],
    ] {
        let mut case = good(words, PURGED, b"jetlab:");
        case.piece = 7;
        case.read = Some(1);
        case.write = Some(1);
        case.status = 5;
        run(&rt, &case)?;
    }
    Ok(())
}
