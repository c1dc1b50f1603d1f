//! That an object is written, read and purged, reply by reply.

ghost use Rattle.std.specs.Prelude.{◌≡◌};

use crate::reading::{history, scenario};
use crate::scenarios::FORCED;
use kern_ids::entries::Entry;
use kern_ids::replies::Reply;
use kernel_core::ghost_log::GhostLog;
use kernel_core::one_thread::OneThread;
use kernel_model::boot::Boot;
use std::process::Abort;
use std::test::Fail;

// What is written is read, and has no bytes once it is purged.
const ENTRIES: &str =
    "history\n0 map 0 = mapped\n0 write 0 1 616263 = wrote\n0 read 0 0 4 = bytes 00616263\n0 set 0 1 = old nonvolatile\n1 force = purged 0\n0 set 0 0 = old empty\n0 read 0 0 4 = bytes 00000000\ndone 7\n";

// The call of each entry gets the reply of the entry.
fn replays(
    rt: &impl Abort,
    boot: &Boot,
    kernel: &mut OneThread<GhostLog>,
    entries: &[Entry],
) -> Result<(), Fail>
    requires { kernel.old.boot ≡ boot.now }
{
    for entry in entries {
        assert!(rt; boot.fits(entry.who, &entry.call));
        let mut reply = Reply::Nothing;
        kernel.call(entry.who, &entry.call, &mut reply)?;
        assert_eq!(rt; reply, entry.reply);
    }
    Ok(())
}

#[test]
fn written_read_and_purged(rt: HostRuntime) -> Result<(), Fail> {
    let scenario = scenario(&rt, rt.alloc(), FORCED)?;
    let history = history(rt.alloc(), ENTRIES)?;
    let mut kernel = OneThread::boot(rt.alloc(), scenario.boot(), GhostLog::new())?;
    replays(&rt, scenario.boot(), &mut kernel, history.as_slice())?;
    assert_eq!(rt; kernel.len(), 7);
    Ok(())
}
