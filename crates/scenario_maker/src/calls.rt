//! The calls of turns.

ghost use Rattle.std.specs.Prelude.{◌≡◌, ◌<◌, length, IsTrue, IfSome, is_some, true};
ghost use Rattle.kernel_model.specs.Histories.{declares_object, fits, is_task_call, names_fit};
ghost use Rattle.kernel_model.specs.System.{System};
ghost use Rattle.scenario_maker.specs.Head.{head};
ghost use Rattle.scenario_maker.specs.Made.{kernel_call, offset, object_call, call_by, turn};

use crate::draws::Draws;
use kern_ids::calls::Call;
use kern_ids::ids::{ObjId, TaskId, ThreadId};
use kern_ids::lines::ByteLine;
use kernel_model::boot::Boot;
use kernel_model::events::task_of;

fn kernel_call(kind: u32) -> Call
    ensures { result ≡ kernel_call kind }
{
    match kind {
        0..=3 => Call::Scan,
        4 => Call::PurgeOne,
        5 => Call::Forced,
        6 => Call::Tick,
        _ => Call::Jetsam,
    }
}

// The start of one of sixteen quarters of a page.
fn offset(draws: &mut Draws) -> u32
    ensures answer { result ≡ (offset draws.old).0 }
    ensures state { draws.new ≡ (offset draws.old).1 }
{
    1024 * draws.draw(16)
}

// A line of four bytes.
fn four(bytes: [u8; 4]) -> ByteLine
    ensures { result ≡ bytes }
{
    match ByteLine::from_slice(&bytes) {
        Some(line) => line,
        None => unreachable!(),
    }
}

// A call of a task's thread on the object, in turn i.
#[tactic(auto, unfolding(crate::specs::Made::object_call))]
fn object_call(draws: &mut Draws, i: u32, obj: ObjId, kind: u32) -> Call
    ensures answer { result ≡ (object_call i obj kind draws.old).0 }
    ensures state { draws.new ≡ (object_call i obj kind draws.old).1 }
    ensures side { is_task_call result ≡ true }
    ensures names { (boot : System) → IsTrue (declares_object boot obj) → IsTrue (names_fit boot result) }
{
    match kind {
        0 => Call::Map { obj },
        1 => Call::Read {
            obj,
            off: offset(draws),
            len: 16,
        },
        2 | 3 => Call::Write {
            obj,
            off: offset(draws),
            bytes: four(i.to_be_bytes()),
        },
        4 => Call::SetState { obj, word: 1 },
        5 => Call::SetState {
            obj,
            word: 65 + 256 * draws.draw(8),
        },
        6 => Call::SetState { obj, word: 0 },
        _ => Call::GetState { obj },
    }
}

// A call in turn i: on one of the objects of the thread's task, or of the kernel.
fn call_by(draws: &mut Draws, i: u32, kind: u32, task: Option<TaskId>) -> Call
    requires { IfSome task (λ t. t < 3) }
    ensures answer { result ≡ (call_by i kind task draws.old).0 }
    ensures state { draws.new ≡ (call_by i kind task draws.old).1 }
    ensures side { is_task_call result ≡ is_some task }
    ensures names { (boot : System) → length boot.objects ≡ 40 → IsTrue (names_fit boot result) }
{
    match task {
        Some(task) => {
            let number = task.get() + 3 * draws.draw(13);
            match ObjId::new(number) {
                Some(obj) => object_call(draws, i, obj, kind),
                None => unreachable!(),
            }
        }
        None => kernel_call(kind),
    }
}

// A thread that there can be.
fn thread_id(n: u32) -> ThreadId
    requires { n < 32 }
    ensures { result ≡ n }
{
    match ThreadId::new(n) {
        Some(thread) => thread,
        None => unreachable!(),
    }
}

/// Turn i: a thread, and its call.
pub fn turn(draws: &mut Draws, boot: &Boot, i: u32) -> (ThreadId, Call)
    requires { boot.now ≡ head.boot }
    ensures drawn { turn i draws.old ≡ (result, draws.new) }
    ensures thread { result.0 < 6 }
    ensures fits { IsTrue (fits boot.now result.0 result.1) }
{
    let who = thread_id(draws.draw(6));
    let kind = draws.draw(8);
    let call = call_by(draws, i, kind, task_of(boot, who));
    (who, call)
}
