ghost use Rattle.std.specs.Prelude.{◌≡◌};
ghost use Rattle.kernel_shared.specs.Calls.{IsIdleOf};

use crate::schedule::{Hold, Moment, Schedule};
use commands::jetlab_top;
use edge::memory_sink::MemSink;
use edge::memory_source::MemSource;
use edge::words::Words;
use kern_ids::calls::{Call, State};
use kern_ids::entries::NoMemory;
use kern_ids::ids::{ObjId, ThreadId};
use kern_ids::lines::ByteLine;
use kern_ids::replies::Reply;
use kernel_model::boot::Boot;
use kernel_model::scenario::Scenario;
use kernel_shared::gate::{Gate, NoGate, Point};
use kernel_shared::shared::{Pass, SharedKernel};
use scenario_text::read_scenario;
use std::alloc::Global;
use std::process::Abort;
use std::sync::Wait;
use std::test::Fail;
use std::thread::Threads;

pub const TWO_MAPS: &[u8] =
    b"jetlab 1\nsystem frames 8 target 8 inactive 3 store 4 critical 0 delay 3\ntask 0 band 5 active 65536 soft inactive 65536 soft\ntask 1 band 5 active 65536 soft inactive 65536 soft\nobject 0 task 0 pages 1\nobject 1 task 1 pages 1\nthread 0 task 0\nmap 0\nthread 1 task 1\nmap 1\norder\nend\n";

const PURGE: &[u8] =
    b"jetlab 1\nsystem frames 8 target 8 inactive 3 store 4 critical 0 delay 3\ntask 0 band 5 active 65536 soft inactive 65536 soft\nobject 0 task 0 pages 1\nthread 0 task 0\nmap 0\nset 0 1\nset 0 0\nthread 1 kernel\npurge\norder\nend\n";

const KILL: &[u8] =
    b"jetlab 1\nsystem frames 8 target 8 inactive 3 store 4 critical 9 delay 3\ntask 0 band 5 active 65536 soft inactive 65536 soft\nobject 0 task 0 pages 1\nthread 0 task 0\nmap 0\nwrite 0 0 61\nthread 1 kernel\njetsam\norder\nend\n";

pub fn moment(thread: u32, point: Point, nth: u64) -> Moment {
    Moment { thread, point, nth }
}

// Runs a scenario under a schedule. The output is the input and one of these histories, and no wait was ended by
// its limit.
fn run<R: Threads + Wait + Abort + AllocGlobal + Sync>(
    rt: &R,
    input: &[u8],
    holds: &[Hold],
    histories: &[&[u8]],
) -> Result<(), Fail> {
    let alloc = rt.alloc();
    let mut words = Words::new(alloc);
    words.push("run")?;
    let mut source = MemSource::new(input.to_vec(alloc)?, 4096, Vec::new(alloc));
    let mut sink = MemSink::new(alloc, 2000, 4096, Vec::new(alloc))?;
    let schedule = Schedule::new(holds);
    assert_eq!(rt;
        jetlab_top(rt, alloc, &words, &mut source, &mut sink, &schedule),
        0
    );
    assert_eq!(rt; schedule.ended(), 0);
    let mut found = false;
    for history in histories {
        let mut text = input.to_vec(alloc)?;
        text.extend_from_slice(history)?;
        found |= sink.bytes() == text.as_slice();
    }
    assert!(rt; found);
    Ok(())
}

// Both threads hold their object's word at one time: neither a run on one thread nor one lock round every call
// gets there.
#[test]
fn two_objects_at_once(rt: HostRuntime) -> Result<(), Fail> {
    let holds = [
        Hold {
            at: moment(0, Point::ObjectTaken, 1),
            until: moment(1, Point::ObjectTaken, 1),
        },
        Hold {
            at: moment(1, Point::ObjectTaken, 1),
            until: moment(0, Point::ObjectTaken, 1),
        },
    ];
    run(
        &rt,
        TWO_MAPS,
        &holds,
        &[
            b"history\n0 map 0 = mapped\n1 map 1 = mapped\ndone 2\n",
            b"history\n1 map 1 = mapped\n0 map 0 = mapped\ndone 2\n",
        ],
    )
}

// The object that a purge chose is no longer volatile once its word is taken.
#[test]
fn purge_looks_again(rt: HostRuntime) -> Result<(), Fail> {
    let holds = [
        Hold {
            at: moment(1, Point::BeforeTurn, 1),
            until: moment(0, Point::AfterTurn, 2),
        },
        Hold {
            at: moment(0, Point::BeforeTurn, 3),
            until: moment(1, Point::ObjectTaken, 1),
        },
        Hold {
            at: moment(1, Point::ObjectTaken, 1),
            until: moment(0, Point::AfterTurn, 3),
        },
    ];
    run(
        &rt,
        PURGE,
        &holds,
        &[
            b"history\n0 map 0 = mapped\n0 set 0 1 = old nonvolatile\n0 set 0 0 = old volatile\n1 purge = nothing\ndone 4\n",
        ],
    )
}

// A task is killed while its thread holds the word of an object.
#[test]
fn kill_before_the_turn(rt: HostRuntime) -> Result<(), Fail> {
    let holds = [
        Hold {
            at: moment(1, Point::BeforeTurn, 1),
            until: moment(0, Point::AfterTurn, 1),
        },
        Hold {
            at: moment(0, Point::ObjectTaken, 2),
            until: moment(1, Point::AfterTurn, 1),
        },
    ];
    run(
        &rt,
        KILL,
        &holds,
        &[
            b"history\n0 map 0 = mapped\n1 jetsam = killed 0 pressure\n0 write 0 0 61 = refused dead\ndone 3\n",
        ],
    )
}

// A scenario that is read without a fault.
pub fn scenario<R: Abort>(rt: &R, alloc: Global, text: &[u8]) -> Result<Scenario, NoMemory> {
    assert!(rt; text.len() < 1 << 31);
    match read_scenario(alloc, text) {
        Ok(s) => Ok(s),
        Err(_) => Err(NoMemory),
    }
}

// A call of one of two threads, and the reply that is wanted.
#[derive(Clone, Copy)]
struct Step {
    scans: bool,
    call: Call,
    reply: Reply,
}

// Makes a call that fits.
pub fn made<R: Wait + Abort, G: Gate>(
    rt: &R,
    gate: &G,
    kernel: &SharedKernel,
    boot: &Boot,
    pass: &mut Pass,
    call: &Call,
) -> Result<Reply, NoMemory>
    requires kernel { kernel.now.base ≡ boot.now }
    requires idle { IsIdleOf kernel.now pass.old }
    ensures { IsIdleOf kernel.now pass.new }
{
    let who = ThreadId::new(pass.number()).expect(rt, "a thread");
    assert!(rt; boot.fits(who, call));
    kernel.call(rt, gate, pass, *call)
}

// Makes the calls, each with its pass.
fn play<R: Wait + Abort>(
    rt: &R,
    kernel: &SharedKernel,
    boot: &Boot,
    owner: &mut Pass,
    scanner: &mut Pass,
    steps: &[Step],
) -> Result<(), NoMemory>
    requires kernel { kernel.now.base ≡ boot.now }
    requires owner { IsIdleOf kernel.now owner.old }
    requires scanner { IsIdleOf kernel.now scanner.old }
{
    for step in steps {
        let reply = if step.scans {
            made(rt, &NoGate, kernel, boot, scanner, &step.call)?
        } else {
            made(rt, &NoGate, kernel, boot, owner, &step.call)?
        };
        assert!(rt; reply == step.reply);
    }
    Ok(())
}

fn by(scans: bool, call: Call, reply: Reply) -> Step {
    Step { scans, call, reply }
}

// An object is written, made volatile, purged, and read.
fn purged_while_volatile(obj: ObjId, bytes: ByteLine, zeros: ByteLine) -> [Step; 6] {
    [
        by(false, Call::Map { obj }, Reply::Mapped),
        by(false, Call::Write { obj, off: 0, bytes }, Reply::Wrote),
        by(
            false,
            Call::SetState { obj, word: 1 },
            Reply::Old(State::Nonvolatile),
        ),
        by(true, Call::Forced, Reply::Purged(obj)),
        by(
            false,
            Call::SetState { obj, word: 0 },
            Reply::Old(State::Empty),
        ),
        by(
            false,
            Call::Read {
                obj,
                off: 0,
                len: 3,
            },
            Reply::Bytes(zeros),
        ),
    ]
}

// One thread has both passes: an object is purged while it is volatile, and is empty afterwards.
#[test]
fn two_passes_of_one_thread(rt: HostRuntime) -> Result<(), Fail> {
    let alloc = rt.alloc();
    let s = scenario(&rt, alloc, PURGE)?;
    let (kernel, mut passes) = SharedKernel::boot(alloc, s.boot())?;
    let (Some(mut scanner), Some(mut owner)) = (passes.take_last(), passes.take_last()) else {
        return Ok(());
    };
    let obj = ObjId::new(0).expect(&rt, "an object");
    let bytes = ByteLine::from_slice(b"abc").expect(&rt, "a line");
    let zeros = ByteLine::from_slice(&[0; 3]).expect(&rt, "a line");
    let steps = purged_while_volatile(obj, bytes, zeros);
    play(&rt, &kernel, s.boot(), &mut owner, &mut scanner, &steps)?;
    Ok(())
}
