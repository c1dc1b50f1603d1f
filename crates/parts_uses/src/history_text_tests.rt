//! The lines of entries, and the texts of histories.

use edge::ends::Sink;
use edge::memory_sink::MemSink;
use edge::writing::{WriteBuffer, write_pieces};
use history_text::{HistoryPieces, write_entry};
use kern_ids::calls::{Call, Limit, State};
use kern_ids::entries::{Entry, EntryList};
use kern_ids::ids::{Band, ObjId, PageId, TaskId, ThreadId};
use kern_ids::lines::{ByteLine, TaskLine};
use kern_ids::replies::{
    Cause, Counts, FrameCounts, Move, QueueCounts, Refusal, Reply, TokenCounts,
};
use std::process::Abort;
use std::test::Fail;

// The entry of a call of thread 31 with its reply has this line.
fn writes(rt: &impl Abort, call: Call, reply: Reply, text: &str) -> Result<(), Fail> {
    let who = ThreadId::new(31).ok_or("a thread")?;
    let line = write_entry(&Entry { who, call, reply });
    assert_eq!(rt; line.as_slice(), text.as_bytes(), "{text}");
    Ok(())
}

fn last_object() -> Result<ObjId, Fail> {
    Ok(ObjId::new(255).ok_or("an object")?)
}

fn last_task() -> Result<TaskId, Fail> {
    Ok(TaskId::new(63).ok_or("a task")?)
}

#[test]
fn objects(rt: HostRuntime) -> Result<(), Fail> {
    let obj = last_object()?;
    let set = Call::SetState { obj, word: 577 };
    let gone = Reply::Refused(Refusal::NoObject);
    for (call, reply, text) in [
        (Call::Map { obj }, Reply::Mapped, "31 map 255 = mapped\n"),
        (
            Call::Attach { obj },
            Reply::Attached,
            "31 attach 255 = attached\n",
        ),
        (
            Call::Unmap { obj },
            Reply::Unmapped,
            "31 unmap 255 = unmapped\n",
        ),
        (
            set,
            Reply::Old(State::Nonvolatile),
            "31 set 255 577 = old nonvolatile\n",
        ),
        (
            Call::GetState { obj },
            Reply::Is(State::Empty),
            "31 get 255 = state empty\n",
        ),
        (
            Call::GetState { obj },
            gone,
            "31 get 255 = refused noobject\n",
        ),
    ] {
        writes(&rt, call, reply, text)?;
    }
    Ok(())
}

fn three_bytes() -> Result<ByteLine, Fail> {
    Ok(ByteLine::from_slice(b"\x00\x9fz").ok_or("bytes")?)
}

// A read of three bytes.
fn three_read(obj: ObjId) -> Call {
    Call::Read {
        obj,
        off: 0,
        len: 3,
    }
}

#[test]
fn bytes(rt: HostRuntime) -> Result<(), Fail> {
    let obj = last_object()?;
    let write = Call::Write {
        obj,
        off: 4093,
        bytes: three_bytes()?,
    };
    let seen = Reply::Bytes(three_bytes()?);
    let short = Reply::Refused(Refusal::Shortage { needed: 2, free: 1 });
    for (call, reply, text) in [
        (write, Reply::Wrote, "31 write 255 4093 009f7a = wrote\n"),
        (three_read(obj), seen, "31 read 255 0 3 = bytes 009f7a\n"),
        (
            three_read(obj),
            short,
            "31 read 255 0 3 = refused shortage 2 1\n",
        ),
    ] {
        writes(&rt, call, reply, text)?;
    }
    Ok(())
}

#[test]
fn tasks(rt: HostRuntime) -> Result<(), Fail> {
    let task = last_task()?;
    let band = Band::new(20).ok_or("a band")?;
    let active = Limit {
        pages: 65536,
        fatal: true,
    };
    let inactive = Limit {
        pages: 0,
        fatal: false,
    };
    let limits = Call::SetLimits {
        task,
        active,
        inactive,
    };
    for (call, reply, text) in [
        (
            Call::Active { on: true },
            Reply::Was(false),
            "31 active 1 = was 0\n",
        ),
        (Call::Exit, Reply::Exited, "31 exit = exited\n"),
        (
            Call::SetBand { task, band },
            Reply::Banded,
            "31 band 63 20 = banded\n",
        ),
        (
            limits,
            Reply::Limited,
            "31 limits 63 65536 fatal 0 soft = limited\n",
        ),
    ] {
        writes(&rt, call, reply, text)?;
    }
    Ok(())
}

#[test]
fn kernel_calls(rt: HostRuntime) -> Result<(), Fail> {
    let obj = last_object()?;
    let freed = Reply::Moved(Move::Freed, PageId { obj, page: 7 });
    let killed = Reply::Killed(last_task()?, Cause::HighWater);
    for (call, reply, text) in [
        (
            Call::PurgeOne,
            Reply::Purged(obj),
            "31 purge = purged 255\n",
        ),
        (Call::Forced, Reply::Nothing, "31 force = nothing\n"),
        (Call::Scan, freed, "31 scan = freed 255 7\n"),
        (Call::Scan, Reply::Enough, "31 scan = enough\n"),
        (Call::Jetsam, killed, "31 jetsam = killed 63 highwater\n"),
        (Call::Jetsam, Reply::NoVictim, "31 jetsam = novictim\n"),
    ] {
        writes(&rt, call, reply, text)?;
    }
    Ok(())
}

#[test]
fn aged_tasks(rt: HostRuntime) -> Result<(), Fail> {
    let mut tasks = TaskLine::new();
    writes(&rt, Call::Tick, Reply::Aged(tasks), "31 tick = aged\n")?;
    tasks.push(last_task()?);
    tasks.push(TaskId::ZERO);
    writes(&rt, Call::Tick, Reply::Aged(tasks), "31 tick = aged 63 0\n")
}

fn queue_counts(tokens: u32) -> QueueCounts {
    QueueCounts {
        tokens,
        ripe: 0,
        next: 5,
        last: 7,
    }
}

#[test]
fn counts(rt: HostRuntime) -> Result<(), Fail> {
    let pages = Counts {
        res_non: 1,
        res_vol: 2,
        com_non: 3,
        com_vol: 4,
        footprint: 4_294_967_295,
    };
    let frames = FrameCounts {
        free: 1,
        active: 2,
        inactive: 3,
        stored: 4,
        entered: 18_446_744_073_709_551_615,
        left: 6,
    };
    let tokens = TokenCounts {
        obsolete: queue_counts(1),
        lifo: queue_counts(2),
        fifo: queue_counts(3),
    };
    for (call, reply, text) in [
        (
            Call::Ledger,
            Reply::Pages(pages),
            "31 ledger = pages 1 2 3 4 4294967295\n",
        ),
        (
            Call::Info,
            Reply::Frames(frames),
            "31 info = frames 1 2 3 4 18446744073709551615 6\n",
        ),
        (
            Call::Purgeables,
            Reply::Tokens(tokens),
            "31 volatiles = tokens 1 0 5 7 2 0 5 7 3 0 5 7\n",
        ),
    ] {
        writes(&rt, call, reply, text)?;
    }
    Ok(())
}

#[test]
fn histories(rt: HostRuntime) -> Result<(), Fail> {
    let who = ThreadId::new(0).ok_or("a thread")?;
    let obj = ObjId::new(0).ok_or("an object")?;
    let mut history = EntryList::new(rt.alloc());
    for text in [
        "history\ndone 0\n",
        "history\n0 map 0 = mapped\ndone 1\n",
        "history\n0 map 0 = mapped\n0 map 0 = mapped\ndone 2\n",
    ] {
        let buffer = WriteBuffer::new(rt.alloc()).map_err(|_| "a buffer")?;
        let mut sink = MemSink::new(rt.alloc(), 100, 7, Vec::new(rt.alloc())).map_err(
            |_| "a sink",
        )?;
        assert!(rt; write_pieces(&mut sink, HistoryPieces::new(&history), buffer).is_ok());
        assert_eq!(rt; sink.bytes(), text.as_bytes());
        assert_eq!(rt; sink.faults(), 0);
        assert!(rt; history.reserve(1).is_ok());
        history.push(Entry {
            who,
            call: Call::Map { obj },
            reply: Reply::Mapped,
        });
    }
    Ok(())
}
