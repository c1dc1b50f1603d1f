//! The verdicts on histories as texts, right and made wrong in each way.

use crate::reading::{history, scenario};
use crate::scenarios::{FORCED, WRITTEN};
use kern_ids::calls::State;
use kern_ids::ids::{ObjId, ThreadId};
use kern_ids::lines::ByteLine;
use kern_ids::replies::Reply;
use replay_check::{Verdict, check};
use std::alloc::Global;
use std::process::Abort;
use std::test::Fail;

// The verdict on the history of a scenario, both as texts.
fn found(rt: &impl Abort, alloc: Global, text: &[u8], entries: &str) -> Result<Verdict, Fail> {
    let scenario = scenario(rt, alloc, text)?;
    let history = history(alloc, entries)?;
    Ok(check(alloc, &scenario, &history)?)
}

#[test]
fn written(rt: HostRuntime) -> Result<(), Fail> {
    let alloc = rt.alloc();
    let bytes = ByteLine::from_slice(b"abc").ok_or("bytes")?;
    for (history, verdict) in [
        (
            "history\n0 map 0 = mapped\n0 write 0 0 616263 = wrote\n0 read 0 0 3 = bytes 616263\ndone 3\n",
            Verdict::Legal,
        ),
        (
            "history\n0 map 0 = mapped\n0 write 0 0 616263 = wrote\n0 read 0 0 3 = bytes 616264\ndone 3\n",
            Verdict::WrongReply {
                place: 2,
                expected: Reply::Bytes(bytes),
            },
        ),
    ] {
        assert_eq!(rt; found(&rt, alloc, WRITTEN, history)?, verdict);
    }
    Ok(())
}

#[test]
fn right_replies(rt: HostRuntime) -> Result<(), Fail> {
    let alloc = rt.alloc();
    let first = ThreadId::new(0).ok_or("a thread")?;
    let second = ThreadId::new(1).ok_or("a thread")?;
    for (history, verdict) in [
        // Whole.
        (
            "history\n0 map 0 = mapped\n0 write 0 0 616263 = wrote\n0 set 0 1 = old nonvolatile\n1 force = purged 0\n0 set 0 0 = old empty\n0 read 0 0 3 = bytes 000000\ndone 6\n",
            Verdict::Legal,
        ),
        // In another order of the threads.
        (
            "history\n1 force = nothing\n0 map 0 = mapped\n0 write 0 0 616263 = wrote\n0 set 0 1 = old nonvolatile\n0 set 0 0 = old volatile\n0 read 0 0 3 = bytes 616263\ndone 6\n",
            Verdict::Legal,
        ),
        // The last call of a thread is missing.
        (
            "history\n0 map 0 = mapped\n0 write 0 0 616263 = wrote\n0 set 0 1 = old nonvolatile\n1 force = purged 0\n0 set 0 0 = old empty\ndone 5\n",
            Verdict::Missing { thread: first },
        ),
        // All calls of the other thread.
        (
            "history\n0 map 0 = mapped\n0 write 0 0 616263 = wrote\n0 set 0 1 = old nonvolatile\n0 set 0 0 = old volatile\n0 read 0 0 3 = bytes 616263\ndone 5\n",
            Verdict::Missing { thread: second },
        ),
        // All calls of both.
        ("history\ndone 0\n", Verdict::Missing { thread: first }),
    ] {
        assert_eq!(rt; found(&rt, alloc, FORCED, history)?, verdict);
    }
    Ok(())
}

#[test]
fn wrong_places(rt: HostRuntime) -> Result<(), Fail> {
    let alloc = rt.alloc();
    let object = ObjId::new(0).ok_or("an object")?;
    for (history, verdict) in [
        // The old state of a purged object.
        (
            "history\n0 map 0 = mapped\n0 write 0 0 616263 = wrote\n0 set 0 1 = old nonvolatile\n1 force = purged 0\n0 set 0 0 = old volatile\n0 read 0 0 3 = bytes 000000\ndone 6\n",
            Verdict::WrongReply {
                place: 4,
                expected: Reply::Old(State::Empty),
            },
        ),
        // A wrong reply comes before a missing call, and before a later wrong call.
        (
            "history\n0 map 0 = mapped\n0 write 0 0 616263 = wrote\n0 set 0 1 = old nonvolatile\n1 force = nothing\n1 force = nothing\ndone 5\n",
            Verdict::WrongReply {
                place: 3,
                expected: Reply::Purged(object),
            },
        ),
        // The thread isn't declared.
        (
            "history\n2 map 0 = mapped\ndone 1\n",
            Verdict::WrongCall { place: 0 },
        ),
        // A call of the right kind with other bytes.
        (
            "history\n0 map 0 = mapped\n0 write 0 0 616264 = wrote\ndone 2\n",
            Verdict::WrongCall { place: 1 },
        ),
        // At one place the call comes before the reply.
        (
            "history\n0 map 0 = mapped\n0 write 0 0 616264 = mapped\ndone 2\n",
            Verdict::WrongCall { place: 1 },
        ),
        // A later call of the script.
        (
            "history\n0 write 0 0 616263 = refused noobject\ndone 1\n",
            Verdict::WrongCall { place: 0 },
        ),
        // A call that was made already.
        (
            "history\n0 map 0 = mapped\n0 map 0 = refused already\ndone 2\n",
            Verdict::WrongCall { place: 1 },
        ),
        // A call of the other thread.
        (
            "history\n0 map 0 = mapped\n1 write 0 0 616263 = wrote\ndone 2\n",
            Verdict::WrongCall { place: 1 },
        ),
        // A call more than the script has.
        (
            "history\n0 map 0 = mapped\n1 force = nothing\n1 force = nothing\ndone 3\n",
            Verdict::WrongCall { place: 2 },
        ),
        // An object that isn't declared.
        (
            "history\n0 map 9 = mapped\ndone 1\n",
            Verdict::WrongCall { place: 0 },
        ),
    ] {
        assert_eq!(rt; found(&rt, alloc, FORCED, history)?, verdict);
    }
    Ok(())
}
