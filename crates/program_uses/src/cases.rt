//! A call of the program over memory.

use commands::{jetlab_top, serial_top};
use edge::ends::Source;
use edge::memory_sink::MemSink;
use edge::memory_source::MemSource;
use edge::words::Words;
use kernel_shared::gate::NoGate;
use std::alloc::Global;
use std::process::Abort;
use std::sync::Wait;
use std::test::Fail;
use std::thread::Threads;

/// A call of the program, and what it must come to.
#[derive(Clone, Copy)]
pub struct Case<'a> {
    pub words: &'a [&'a str],
    pub input: &'a [u8],
    /// The most bytes that a read gives and that a write takes.
    pub piece: usize,
    /// The number of the read that fails, if one does.
    pub read: Option<u64>,
    /// The number of the write that fails, if one does.
    pub write: Option<u64>,
    pub status: u8,
    pub text: &'a [u8],
}

/// A command on a good input, whose status is 0.
pub fn good<'a>(words: &'a [&'a str], input: &'a [u8], text: &'a [u8]) -> Case<'a> {
    Case {
        words,
        input,
        piece: 4096,
        read: None,
        write: None,
        status: 0,
        text,
    }
}

/// The status of the program, and what it wrote: `run` with its threads, every other command on one.
pub fn answer<R: Threads + Wait + Abort + AllocGlobal + Sync, S: Source>(
    rt: &R,
    words: &[&str],
    source: &mut S,
    sink: &mut MemSink,
) -> Result<u8, Fail> {
    let alloc = rt.alloc();
    let mut list = Words::new(alloc);
    for word in words {
        list.push(word)?;
    }
    if words == ["run"].as_slice() {
        Ok(jetlab_top(rt, alloc, &list, source, sink, &NoGate))
    } else {
        Ok(serial_top(alloc, &list, source, sink))
    }
}

// The numbers of the calls that fail: one or none.
fn failing(alloc: Global, number: Option<u64>) -> Result<Vec<u64>, Fail> {
    let mut numbers = Vec::new(alloc);
    if let Some(number) = number {
        numbers.push(number)?;
    }
    Ok(numbers)
}

/// The call comes to its status and its text.
pub fn run<R: Threads + Wait + Abort + AllocGlobal + Sync>(
    rt: &R,
    case: &Case<'_>,
) -> Result<(), Fail> {
    let alloc = rt.alloc();
    assert!(rt; 0 < case.piece);
    let reads = failing(alloc, case.read)?;
    let writes = failing(alloc, case.write)?;
    let mut source = MemSource::new(case.input.to_vec(alloc)?, case.piece, reads);
    let mut sink = MemSink::new(alloc, 2000, case.piece, writes)?;
    let status = answer(rt, case.words, &mut source, &mut sink)?;
    assert_eq!(rt; status, case.status, "{:?}", case.words);
    assert_eq!(rt; sink.bytes(), case.text, "{:?}", case.words);
    Ok(())
}
