//! A call without its bytes.

use kern_ids::calls::Limit;
use kern_ids::ids::{Band, ObjId, TaskId};

/// What a thread asks for, without the bytes of a Write.
#[derive(Clone, Copy, PartialEq, Eq, Debug)]
pub enum CallHead {
    Map {
        obj: ObjId,
    },
    Unmap {
        obj: ObjId,
    },
    Write {
        obj: ObjId,
        off: u32,
    },
    Read {
        obj: ObjId,
        off: u32,
        len: u32,
    },
    SetState {
        obj: ObjId,
        word: u32,
    },
    GetState {
        obj: ObjId,
    },
    Active {
        on: bool,
    },
    Ledger,
    Exit,
    PurgeOne,
    Forced,
    Scan,
    Tick,
    Jetsam,
    SetBand {
        task: TaskId,
        band: Band,
    },
    SetLimits {
        task: TaskId,
        active: Limit,
        inactive: Limit,
    },
    Info,
    Purgeables,
    Attach {
        obj: ObjId,
    },
}
