//! What the tables have at the start.

ghost use Rattle.std.specs.Prelude.{◌≡◌, ◌≤◌, ◌<◌, ◌*◌, ℕ, [], nat_eq, set, Some, if◌then◌else◌, length, filter, map, replicate, false, IfOk};
ghost use Rattle.std.specs.List.{range_with_len};
ghost use Rattle.link_list.specs.KeyLists.{list_at};
ghost use Rattle.idle_ageing.specs.Ageing.{count_of};
ghost use Rattle.kernel_tables.specs.Start as starts;

use idle_ageing::Ages;
use kern_ids::entries::NoMemory;
use kern_ids::ids::{Band, TaskId};
use kernel_model::boot::{Boot, TaskBoot};
use page_queues::PageQueues;
use priority_bands::Bands;
use std::alloc::Global;

/// The size of each object, in pages.
fn sizes(alloc: Global, boot: &Boot) -> Result<Vec<u32>, NoMemory>
    ensures { IfOk result (λ made. made.items ≡ map (λ object. object.pages) boot.now.objects) }
{
    boot.objects()
        .iter()
        .map(|object| object.pages)
        .collect(alloc)
        .map_err(|_| NoMemory)
}

/// The pages of the objects, all Absent.
pub fn pages(alloc: Global, boot: &Boot) -> Result<PageQueues, NoMemory>
    ensures { IfOk result (λ made. made ≡ record { frames = boot.now.params.frames; sizes = map (λ object. object.pages) boot.now.objects; queues = replicate 3 []; marks = replicate (256 * length boot.now.objects) false }) }
{
    boot.valid();
    let sizes = sizes(alloc, boot)?;
    Ok(PageQueues::new(alloc, boot.params().frames, &sizes)?)
}

/// The delay of each task, in Ticks.
pub fn delays(alloc: Global, tasks: &[TaskBoot]) -> Result<Vec<u32>, NoMemory>
    ensures { IfOk result (λ made. made.items ≡ map (λ task. task.delay) tasks.now) }
{
    tasks
        .iter()
        .map(|task| task.delay)
        .collect(alloc)
        .map_err(|_| NoMemory)
}

/// The band that each task wishes.
pub fn wishes(alloc: Global, tasks: &[TaskBoot]) -> Result<Vec<Band>, NoMemory>
    ensures { IfOk result (λ made. made.items ≡ map (λ task. task.band) tasks.now) }
{
    tasks
        .iter()
        .map(|task| task.band)
        .collect(alloc)
        .map_err(|_| NoMemory)
}

// The band in which a task is at the start.
fn first_band(task: &TaskBoot) -> Band
    ensures { result ≡ starts.first_band task.now }
{
    if task.band.get() == 0 {
        task.ageing
    } else {
        task.band
    }
}

/// The bands with each task at its place, in the order of the tasks' numbers.
pub fn bands(alloc: Global, tasks: &[TaskBoot]) -> Result<Bands, NoMemory>
    requires few { length tasks.now ≤ 64 }
    ensures count { IfOk result (λ made. length made ≡ 21) }
    ensures each { IfOk result (λ made. (b : ℕ) → b < 21 → list_at made b ≡ filter (starts.begins_in tasks.now b) (range_with_len 0 (length tasks.now))) }
{
    let mut bands = Bands::new(alloc)?;
    for (i, task) in tasks.iter().enumerate() {
        bands.are_bands();
        let t = TaskId::new(i as u32).unwrap();
        bands.place(t, first_band(task));
    }
    bands.are_bands();
    Ok(bands)
}

// A task begins to count where it wishes band 0.
fn begin_count(ages: &mut Ages, t: TaskId, task: &TaskBoot)
    requires { t < length ages.old.counts }
    ensures delays { ages.new.delays ≡ ages.old.delays }
    ensures counts { ages.new.counts ≡ (if nat_eq task.now.band 0 then set ages.old.counts t (Some 0) else ages.old.counts) }
{
    if task.band.get() == 0 {
        ages.restart(t);
    }
}

/// The ages: each task that wishes band 0 counts.
pub fn ages(alloc: Global, tasks: &[TaskBoot]) -> Result<Ages, NoMemory>
    requires few { length tasks.now ≤ 64 }
    ensures delays { IfOk result (λ made. made.delays ≡ map (λ task. task.delay) tasks.now) }
    ensures each { IfOk result (λ made. (t : ℕ) → t < length tasks.now → count_of made t ≡ starts.first_count tasks.now t) }
{
    let delays = delays(alloc, tasks)?;
    let mut ages = Ages::new(alloc, &delays)?;
    for (i, task) in tasks.iter().enumerate() {
        let t = TaskId::new(i as u32).unwrap();
        begin_count(&mut ages, t, task);
    }
    Ok(ages)
}
