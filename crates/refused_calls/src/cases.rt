//! The calls.

use kern_ids::calls::{Call, State};
use kern_ids::ids::ObjId;
use kern_ids::lines::ByteLine;
use kern_ids::replies::{Refusal, Reply};

/// A task with two threads and a thread of the kernel. There are too few frames free once the object has a page.
pub const SCENARIO: &[u8] =
    b"jetlab 1\nsystem frames 8 target 8 inactive 0 store 4 critical 0 delay 3\ntask 0 band 5 active 65536 soft inactive 65536 soft\nobject 0 task 0 pages 2\nthread 0 task 0\nthread 1 task 0\nthread 2 kernel\norder\nend\n";

/// How many cases there are.
pub const CASES: usize = 6;

/// What the cases are called.
pub const NAMES: [&str; CASES] = ["map", "write", "read", "set empty", "purge", "scan"];

/// A call that needs the bytes of the object.
#[derive(Clone, Copy)]
pub struct Case {
    /// The calls before it, by the task's first thread.
    pub before: [Call; 4],
    /// It is a call of the kernel's thread, and else of the task's first.
    pub scans: bool,
    pub call: Call,
    pub reply: Reply,
    /// How the task's second thread reads the object, and what it sees before the call.
    pub read: Call,
    pub seen: Reply,
}

/// The object.
pub fn object() -> Option<ObjId> {
    ObjId::new(0)
}

// What is common to the cases: `abc` stands in the last three bytes of the first page, and the second page was not written.
fn common_case(obj: ObjId, third: Call, scans: bool, call: Call, reply: Reply) -> Option<Case> {
    let bytes = ByteLine::from_slice(b"abc")?;
    let seen = ByteLine::from_slice(b"abc\0\0")?;
    Some(Case {
        before: [
            Call::Map { obj },
            Call::Write {
                obj,
                off: 4093,
                bytes,
            },
            third,
            Call::GetState { obj },
        ],
        scans,
        call,
        reply,
        read: Call::Read {
            obj,
            off: 4093,
            len: 5,
        },
        seen: Reply::Bytes(seen),
    })
}

// A map of an object that was unmapped. Before it no thread can read the object.
fn map_case(obj: ObjId) -> Option<Case> {
    let mut case = common_case(
        obj,
        Call::Unmap { obj },
        false,
        Call::Map { obj },
        Reply::Mapped,
    )?;
    case.seen = Reply::Refused(Refusal::NoObject);
    Some(case)
}

// A write that needs a page more.
fn write_case(obj: ObjId) -> Option<Case> {
    let bytes = ByteLine::from_slice(b"defg")?;
    let call = Call::Write {
        obj,
        off: 4094,
        bytes,
    };
    common_case(obj, Call::GetState { obj }, false, call, Reply::Wrote)
}

fn read_case(obj: ObjId) -> Option<Case> {
    let bytes = ByteLine::from_slice(b"bc\0")?;
    let call = Call::Read {
        obj,
        off: 4094,
        len: 3,
    };
    common_case(
        obj,
        Call::GetState { obj },
        false,
        call,
        Reply::Bytes(bytes),
    )
}

fn empty_case(obj: ObjId) -> Option<Case> {
    let call = Call::SetState { obj, word: 2 };
    common_case(
        obj,
        Call::GetState { obj },
        false,
        call,
        Reply::Old(State::Nonvolatile),
    )
}

// A call that purges the object.
fn purge_case(obj: ObjId, call: Call) -> Option<Case> {
    common_case(
        obj,
        Call::SetState { obj, word: 1 },
        true,
        call,
        Reply::Purged(obj),
    )
}

/// All cases, in the order of their names.
pub fn all_cases(obj: ObjId) -> Option<[Case; CASES]> {
    Some([
        map_case(obj)?,
        write_case(obj)?,
        read_case(obj)?,
        empty_case(obj)?,
        purge_case(obj, Call::PurgeOne)?,
        purge_case(obj, Call::Scan)?,
    ])
}
