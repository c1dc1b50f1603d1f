//! That the plain kernel and the kernel of one thread have the same history.

use crate::pressure::{KILLED, PURGED, SHARED, SHARED_PURGED};
use crate::reading::scenario;
use kern_ids::calls::Call;
use kern_ids::entries::{Entry, EntryList};
use kern_ids::ids::ThreadId;
use kernel_core::one_thread::OneThread;
use kernel_model::boot::Boot;
use slow_kernel::kernel::SlowKernel;
use std::alloc::Global;
use std::process::Abort;
use std::test::Fail;
use thread_runner::serial::run_serial;

// The plain kernel answers each call of the history as the history does.
fn answered_alike(
    rt: &impl Abort,
    alloc: Global,
    boot: &Boot,
    history: &EntryList,
) -> Result<(), Fail> {
    let mut slow = SlowKernel::new(alloc, boot)?;
    for entry in history.as_slice() {
        assert!(rt; slow.boot().fits(entry.who, &entry.call));
        let reply = slow.answer(entry.who, &entry.call)?;
        assert_eq!(rt; reply, entry.reply);
        slow.legal();
        slow.push(Entry {
            who: entry.who,
            call: entry.call,
            reply,
        })?;
    }
    Ok(())
}

// The history of these calls, made as one list.
fn listed(
    rt: &impl Abort,
    alloc: Global,
    boot: &Boot,
    calls: &[(ThreadId, Call)],
) -> Result<EntryList, Fail> {
    let mut one = OneThread::boot(alloc, boot, EntryList::new(alloc))?;
    for turn in calls {
        assert!(rt; boot.fits(turn.0, &turn.1));
    }
    one.run_list(calls)?;
    assert_eq!(rt; one.len(), calls.len());
    Ok(one.into_log())
}

// The calls of a history, made again as one list, have the same replies.
fn listed_alike(
    rt: &impl Abort,
    alloc: Global,
    boot: &Boot,
    history: &EntryList,
) -> Result<(), Fail> {
    let mut calls = Vec::new(alloc);
    for entry in history.as_slice() {
        calls.push((entry.who, entry.call))?;
    }
    let listed = listed(rt, alloc, boot, calls.as_slice())?;
    for (again, entry) in listed.as_slice().iter().zip(history.as_slice()) {
        assert_eq!(rt; again.reply, entry.reply);
    }
    Ok(())
}

// Both kernels have one history of the scenario, of so many entries.
fn same_history(rt: &impl Abort, alloc: Global, text: &[u8], entries: usize) -> Result<(), Fail> {
    let scenario = scenario(rt, alloc, text)?;
    let history = run_serial(alloc, &scenario)?;
    assert_eq!(rt; history.len(), entries);
    answered_alike(rt, alloc, scenario.boot(), &history)?;
    listed_alike(rt, alloc, scenario.boot(), &history)
}

#[test]
fn killed(rt: HostRuntime) -> Result<(), Fail> {
    same_history(&rt, rt.alloc(), KILLED, 86)
}

#[test]
fn purged(rt: HostRuntime) -> Result<(), Fail> {
    same_history(&rt, rt.alloc(), PURGED, 86)
}

#[test]
fn shared(rt: HostRuntime) -> Result<(), Fail> {
    same_history(&rt, rt.alloc(), SHARED, 88)
}

#[test]
fn shared_purged(rt: HostRuntime) -> Result<(), Fail> {
    same_history(&rt, rt.alloc(), SHARED_PURGED, 89)
}
