//! The parts of the tables, and what they have at the start.

ghost use Rattle.std.specs.Prelude.{◌≡◌, ◌≤◌, ◌<◌, ◌*◌, ℕ, [], length, map, filter, replicate, false, IfOk};
ghost use Rattle.std.specs.List.{range_with_len};
ghost use Rattle.link_list.specs.KeyLists.{list_at};
ghost use Rattle.vm_object.specs.Objects.{new_object};
ghost use Rattle.task_ledger.specs.Accounts.{first_account};
ghost use Rattle.idle_ageing.specs.Ageing.{count_of};
ghost use Rattle.kernel_tables.specs.Start as starts;
ghost use Rattle.kernel_tables.specs.Values.{values};
ghost use Rattle.kernel_tables.specs.Stands.{Stands};

use crate::beginnings;
use idle_ageing::Ages;
use kern_ids::entries::NoMemory;
use kern_ids::ids::Band;
use kernel_model::boot::{Boot, TaskBoot};
use page_queues::PageQueues;
use priority_bands::Bands;
use ripen_advance::TokenQueues;
use std::alloc::Global;
use task_ledger::Ledgers;
use vm_object::ObjectTable;
use volatile_groups::Groups;

/// What the kernel began with, and what it keeps of the history.
#[derive(Drop)]
pub(crate) struct Parts {
    pub(crate) boot: Boot,
    pub(crate) objects: ObjectParts,
    pub(crate) tasks: TaskParts,
    /// How many pages were ever deactivated.
    pub(crate) entered: u64,
}

/// The parts that the pages and the objects have.
#[derive(Drop)]
pub(crate) struct ObjectParts {
    /// The places of the pages.
    pub(crate) pages: PageQueues,
    /// The volatile objects.
    pub(crate) groups: Groups,
    pub(crate) tokens: TokenQueues,
    pub(crate) table: ObjectTable,
}

/// The parts that the tasks have.
#[derive(Drop)]
pub(crate) struct TaskParts {
    /// The accounts of the tasks.
    pub(crate) ledgers: Ledgers,
    pub(crate) bands: Bands,
    pub(crate) ages: Ages,
    /// The band that each task wishes.
    pub(crate) wishes: Vec<Band>,
}

impl ObjectParts {
    fn new(alloc: Global, boot: &Boot) -> Result<ObjectParts, NoMemory>
        ensures pages { IfOk result (λ made. made.pages ≡ record { frames = boot.now.params.frames; sizes = map (λ object. object.pages) boot.now.objects; queues = replicate 3 []; marks = replicate (256 * length boot.now.objects) false }) }
        ensures groups { IfOk result (λ made. made.groups ≡ replicate 24 []) }
        ensures tokens { IfOk result (λ made. made.tokens ≡ record { obsolete = []; lifo = []; fifo = []; ahead = 0 }) }
        ensures objects { IfOk result (λ made. made.table ≡ map new_object boot.now.objects) }
    {
        Ok(ObjectParts {
            pages: beginnings::pages(alloc, boot)?,
            groups: Groups::new(alloc)?,
            tokens: TokenQueues::new(alloc)?,
            table: ObjectTable::new(alloc, boot.objects())?,
        })
    }
}

impl TaskParts {
    fn new(alloc: Global, tasks: &[TaskBoot]) -> Result<TaskParts, NoMemory>
        requires few { length tasks.now ≤ 64 }
        ensures ledgers { IfOk result (λ made. made.ledgers ≡ map first_account tasks.now) }
        ensures bands { IfOk result (λ made. (b : ℕ) → b < 21 → list_at made.bands b ≡ filter (starts.begins_in tasks.now b) (range_with_len 0 (length tasks.now))) }
        ensures delays { IfOk result (λ made. made.ages.delays ≡ map (λ task. task.delay) tasks.now) }
        ensures counts { IfOk result (λ made. (t : ℕ) → t < length tasks.now → count_of made.ages t ≡ starts.first_count tasks.now t) }
        ensures wishes { IfOk result (λ made. made.wishes.items ≡ map (λ task. task.band) tasks.now) }
    {
        Ok(TaskParts {
            ledgers: Ledgers::new(alloc, tasks)?,
            bands: beginnings::bands(alloc, tasks)?,
            ages: beginnings::ages(alloc, tasks)?,
            wishes: beginnings::wishes(alloc, tasks)?,
        })
    }
}

impl Parts {
    /// The parts at the start. All memory is taken here.
    pub(crate) fn new(alloc: Global, boot: &Boot) -> Result<Parts, NoMemory>
        ensures boot { IfOk result (λ parts. parts.boot ≡ boot.now) }
        ensures stands { IfOk result (λ parts. Stands (values parts) []) }
    {
        let objects = ObjectParts::new(alloc, boot)?;
        let tasks = TaskParts::new(alloc, boot.tasks())?;
        let boot = boot.copy(alloc)?;
        Ok(Parts {
            boot,
            objects,
            tasks,
            entered: 0,
        })
    }
}
