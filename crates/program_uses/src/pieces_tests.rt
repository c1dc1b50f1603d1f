//! How the checks of histories in pieces end, right and made wrong.

ghost use Rattle.std.specs.Prelude.{◌<◌, ◌^◌};

use crate::pieces::in_pieces;
use crate::reading::scenario;
use crate::scenarios::FORCED;
use kern_ids::calls::State;
use kern_ids::faults::Why;
use kern_ids::ids::{ObjId, ThreadId};
use kern_ids::replies::Reply;
use replay_check::{PieceEnd, Verdict};
use std::alloc::Global;
use std::process::Abort;
use std::test::Fail;

// The history of the scenario, legal and whole: the lines 15 to 22.
const WHOLE: &str =
    "history\n0 map 0 = mapped\n0 write 0 0 616263 = wrote\n0 set 0 1 = old nonvolatile\n1 force = purged 0\n0 set 0 0 = old empty\n0 read 0 0 3 = bytes 000000\ndone 6\n";

// The same with another reply at place 4.
const OTHER_REPLY: &str =
    "history\n0 map 0 = mapped\n0 write 0 0 616263 = wrote\n0 set 0 1 = old nonvolatile\n1 force = purged 0\n0 set 0 0 = old volatile\n0 read 0 0 3 = bytes 000000\ndone 6\n";

// How the check of a history ends that begins in line 15.
fn ended(
    rt: &impl Abort,
    alloc: Global,
    history: &str,
    cut: usize,
    size: usize,
) -> Result<PieceEnd, Fail>
    requires some { 0 < size }
    requires small { size < 2 ^ 31 }
{
    let bytes = history.as_bytes();
    assert!(rt; bytes.len() < 1 << 30);
    let scenario = scenario(rt, alloc, FORCED)?;
    Ok(in_pieces(alloc, scenario, 15, bytes, cut, size)?)
}

// A check ends so, in pieces of several sizes.
fn ends(rt: &impl Abort, alloc: Global, history: &str, end: PieceEnd) -> Result<(), Fail> {
    for size in [1, 2, 7, 5000] {
        assert_eq!(rt; ended(rt, alloc, history, 0, size)?, end);
    }
    Ok(())
}

// A history has a fault.
fn is_bad(rt: &impl Abort, alloc: Global, history: &str, line: u32, why: Why) -> Result<(), Fail> {
    ends(rt, alloc, history, PieceEnd::Bad { line, why })
}

#[test]
fn cuts(rt: HostRuntime) -> Result<(), Fail> {
    let alloc = rt.alloc();
    let other = PieceEnd::Done(Verdict::WrongReply {
        place: 4,
        expected: Reply::Old(State::Empty),
    });
    for (history, end) in [
        (WHOLE, PieceEnd::Done(Verdict::Legal)),
        (OTHER_REPLY, other),
    ] {
        ends(&rt, alloc, history, end)?;
        for cut in 0..history.len() {
            assert_eq!(rt; ended(&rt, alloc, history, cut, 5000)?, end);
        }
    }
    Ok(())
}

#[test]
fn verdicts(rt: HostRuntime) -> Result<(), Fail> {
    let alloc = rt.alloc();
    let object = ObjId::new(0).ok_or("an object")?;
    let first = ThreadId::new(0).ok_or("a thread")?;
    let second = ThreadId::new(1).ok_or("a thread")?;
    for (history, verdict) in [
        // The last call of a thread is missing.
        (
            "history\n0 map 0 = mapped\n0 write 0 0 616263 = wrote\n0 set 0 1 = old nonvolatile\n1 force = purged 0\n0 set 0 0 = old empty\ndone 5\n",
            Verdict::Missing { thread: first },
        ),
        // All calls of the other thread.
        (
            "history\n0 map 0 = mapped\n0 write 0 0 616263 = wrote\n0 set 0 1 = old nonvolatile\n0 set 0 0 = old volatile\n0 read 0 0 3 = bytes 616263\ndone 5\n",
            Verdict::Missing { thread: second },
        ),
        ("history\ndone 0\n", Verdict::Missing { thread: first }),
        // A wrong reply before a wrong call.
        (
            "history\n0 map 0 = mapped\n0 write 0 0 616263 = wrote\n0 set 0 1 = old nonvolatile\n1 force = nothing\n1 force = nothing\ndone 5\n",
            Verdict::WrongReply {
                place: 3,
                expected: Reply::Purged(object),
            },
        ),
        // A thread that isn't declared.
        (
            "history\n2 map 0 = mapped\ndone 1\n",
            Verdict::WrongCall { place: 0 },
        ),
        // Other bytes.
        (
            "history\n0 map 0 = mapped\n0 write 0 0 616264 = wrote\ndone 2\n",
            Verdict::WrongCall { place: 1 },
        ),
    ] {
        ends(&rt, alloc, history, PieceEnd::Done(verdict))?;
    }
    Ok(())
}

#[test]
fn faults(rt: HostRuntime) -> Result<(), Fail> {
    let alloc = rt.alloc();
    for (history, line, why) in [
        ("", 15, Why::NoEnd),
        ("history", 15, Why::NoEnd),
        ("order 0 0\n", 15, Why::Word),
        ("history\n", 16, Why::NoEnd),
        // Cut in the middle of a line.
        (
            "history\n0 map 0 = mapped\n0 write 0 0 616263 = wrote\n0 set 0 1 = old nonvolatile\n1 force = purged 0\n0 set 0",
            20,
            Why::NoEnd,
        ),
        // A count that isn't the number of entries.
        (
            "history\n0 map 0 = mapped\n0 write 0 0 616263 = wrote\n0 set 0 1 = old nonvolatile\n1 force = purged 0\n0 set 0 0 = old empty\n0 read 0 0 3 = bytes 000000\ndone 5\n",
            22,
            Why::Count,
        ),
        // The same after a wrong reply: the form is read to its end.
        (
            "history\n0 map 0 = mapped\n0 write 0 0 616263 = wrote\n0 set 0 1 = old nonvolatile\n1 force = purged 0\n0 set 0 0 = old volatile\n0 read 0 0 3 = bytes 000000\ndone 5\n",
            22,
            Why::Count,
        ),
        // Where calls are missing.
        ("history\n0 map 0 = mapped\ndone 6\n", 17, Why::Count),
        // A line that is no entry, before a wrong one and after one.
        (
            "history\n0 map 0 = mapped\n0 map 0\n0 map 0 = mapped\ndone 2\n",
            17,
            Why::Entry,
        ),
        (
            "history\n0 map 9 = mapped\n0 write 0 0 616263 = wrote\n\ndone 2\n",
            18,
            Why::Entry,
        ),
        // Bytes after the end.
        (
            "history\n0 map 0 = mapped\ndone 1\ndone 1\n",
            18,
            Why::AfterEnd,
        ),
    ] {
        is_bad(&rt, alloc, history, line, why)?;
    }
    Ok(())
}
