//! What every made scenario begins with.

ghost use Rattle.std.specs.Prelude.{◌≡◌, ◌≤◌, ◌<◌, [], length, false, OnOk, IfOk};
ghost use Rattle.kernel_model.specs.declared.scenario.Form.TheVariants.{One};
ghost use Rattle.scenario_maker.specs.Head.{head, task_boot, head_tasks, object_boot, head_objects, head_sides};

use kern_ids::calls::Limit;
use kern_ids::entries::NoMemory;
use kern_ids::ids::{Band, TaskId};
use kern_ids::lines::TaskLine;
use kernel_model::boot::{ObjBoot, Params, Side, TaskBoot};
use kernel_model::scenario::{Form, Scenario};
use std::alloc::Global;

// A limit that isn't fatal.
fn soft(pages: u32) -> Limit
    ensures { result ≡ record { pages = pages; fatal = false } }
{
    Limit {
        pages,
        fatal: false,
    }
}

// A band that there is.
fn band_of(n: u32) -> Band
    requires { n ≤ 20 }
    ensures { result ≡ n }
{
    match Band::new(n) {
        Some(band) => band,
        None => unreachable!(),
    }
}

// A task that there can be.
fn task_id(n: u32) -> TaskId
    requires { n < 64 }
    ensures { result ≡ n }
{
    match TaskId::new(n) {
        Some(task) => task,
        None => unreachable!(),
    }
}

// A task of two soft limits.
fn task_boot(band: u32, active: u32, inactive: u32, internal: bool) -> TaskBoot
    requires { band ≤ 20 }
    ensures { result ≡ task_boot band active inactive internal }
{
    TaskBoot {
        band: band_of(band),
        active: soft(active),
        inactive: soft(inactive),
        internal,
        delay: 4,
        ageing: band_of(1),
    }
}

// Object o, which belongs to one task.
fn object_boot(o: u32) -> ObjBoot
    ensures { result ≡ object_boot o }
{
    let mut tasks = TaskLine::new();
    tasks.push(task_id(o % 3));
    ObjBoot {
        tasks,
        pages: 1 + o % 4,
    }
}

fn add_tasks(scenario: &mut Scenario) -> Result<(), NoMemory>
    requires form { scenario.old.form ≡ One 4 }
    requires tasks { scenario.old.boot.tasks ≡ [] }
    ensures { OnOk result (scenario.new ≡ record scenario.old { boot = record scenario.old.boot { tasks = head_tasks } }) }
{
    scenario.add_task(task_boot(0, 24, 12, false))?;
    scenario.add_task(task_boot(5, 24, 12, false))?;
    scenario.add_task(task_boot(10, 65536, 65536, true))
}

fn add_objects(scenario: &mut Scenario) -> Result<(), NoMemory>
    requires tasks { length scenario.old.boot.tasks ≡ 3 }
    requires objects { scenario.old.boot.objects ≡ [] }
    ensures { OnOk result (scenario.new ≡ record scenario.old { boot = record scenario.old.boot { objects = head_objects } }) }
{
    for o in 0..40 {
        scenario.add_object(object_boot(o))?;
    }
    Ok(())
}

fn add_threads(alloc: Global, scenario: &mut Scenario) -> Result<(), NoMemory>
    requires tasks { length scenario.old.boot.tasks ≡ 3 }
    requires sides { scenario.old.boot.sides ≡ [] }
    requires scripts { scenario.old.scripts ≡ [] }
    ensures { OnOk result (scenario.new ≡ record scenario.old { boot = record scenario.old.boot { sides = head_sides }; scripts = head.scripts }) }
{
    scenario.add_thread(alloc, Side::Task(task_id(0)))?;
    scenario.add_thread(alloc, Side::Task(task_id(1)))?;
    scenario.add_thread(alloc, Side::Task(task_id(2)))?;
    scenario.add_thread(alloc, Side::Task(task_id(2)))?;
    scenario.add_thread(alloc, Side::Kernel)?;
    scenario.add_thread(alloc, Side::Kernel)
}

/// The head, with no turns.
pub fn head(alloc: Global) -> Result<Scenario, NoMemory>
    ensures { IfOk result (λ s. s ≡ head) }
{
    let params = Params {
        frames: 64,
        target: 16,
        inactive: 16,
        store: 64,
        critical: 1,
    };
    let mut scenario = Scenario::new(alloc, Form::One { delay: 4 }, params);
    add_tasks(&mut scenario)?;
    add_objects(&mut scenario)?;
    add_threads(alloc, &mut scenario)?;
    Ok(scenario)
}
