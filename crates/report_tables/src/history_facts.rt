//! The state after a history, from the tables of a kernel.

ghost use Rattle.std.specs.Prelude.{◌≡◌, ◌<◌, List, length, reverse, map, IfOk};
ghost use Rattle.kern_ids.specs.declared.entries.Entry.{Entry as AnEntry};
ghost use Rattle.kern_ids.specs.declared.replies.Reply.TheVariants.{Frames, Tokens};
ghost use Rattle.kernel_model.specs.Groups.{objects_of};
ghost use Rattle.kernel_model.specs.Mapping.{tasks_of};
ghost use Rattle.kernel_model.specs.Answers.{frames_reply, tokens_reply};
ghost use Rattle.report_tables.specs.Facts as spec;
ghost use Rattle.report_tables.specs.Facts.{Tell};

use crate::rows::{ObjectFacts, TaskFacts};
use crate::trial::{killed, purged};
use kern_ids::entries::{Entry, EntryList, NoMemory};
use kern_ids::ids::{ObjId, TaskId};
use kern_ids::replies::{FrameCounts, TokenCounts};
use kernel_core::kernel::Kernel;
use kernel_model::boot::Boot;
use kernel_tables::tables::Tables;
use slow_kernel::groups::object_id;
use slow_kernel::mapping::task_id;
use std::alloc::Global;
use std::marker::Model;

/// The state after a history: how many entries it has, how many replies purge and kill, each task and
/// each object by its number, and the numbers that Info and Purgeables answer.
#[derive(Drop)]
pub struct Facts {
    pub entries: usize,
    pub purged: usize,
    pub killed: usize,
    pub tasks: Vec<TaskFacts>,
    pub objects: Vec<ObjectFacts>,
    pub frames: FrameCounts,
    pub tokens: TokenCounts,
}

impl Model for Facts {
    ghost use Rattle.report_tables.specs.Facts.{Report};

    ghost Value = { Report };

    ghost view = { λ f. record { entries = f.entries; purged = f.purged; killed = f.killed; tasks = f.tasks.items; objects = f.objects.items; frames = f.frames; tokens = f.tokens } };
}

// The entries are named for the proofs alone, here and below.
fn task_facts(tables: &Tables, _entries: &[Entry], t: TaskId) -> TaskFacts
    ghost past: { List AnEntry }
    requires tell { Tell tables.now past }
    requires declared { t < length tables.now.boot.tasks }
    ensures { result ≡ spec.task_facts tables.now.boot past t }
{
    TaskFacts {
        task: t.get(),
        life: tables.task(t),
    }
}

#[tactic(auto, using(slow_kernel::proofs::Tables::table_more))]
fn task_table(
    alloc: Global,
    boot: &Boot,
    tables: &Tables,
    entries: &[Entry],
) -> Result<Vec<TaskFacts>, NoMemory>
    requires tell { Tell tables.now (reverse entries.now) }
    requires boot { tables.now.boot ≡ boot.now }
    ensures { IfOk result (λ v. v.items ≡ map (spec.task_facts boot.now (reverse entries.now)) (tasks_of boot.now)) }
{
    let mut table = Vec::new(alloc);
    let n = boot.tasks().len();
    for k in 0..n {
        let facts = task_facts(tables, entries, task_id(k));
        table.reserve(1).map_err(|_| NoMemory)?;
        table.push_reserved(facts);
    }
    Ok(table)
}

/// The first task that was declared for o.
fn first_task(boot: &Boot, o: ObjId) -> u32
    ensures { result ≡ spec.first_task boot.now o }
{
    match boot.objects().get(o.get() as usize) {
        Some(object) => match object.tasks.get(0) {
            Some(t) => t.get(),
            None => 0,
        },
        None => 0,
    }
}

fn object_facts(boot: &Boot, tables: &Tables, _entries: &[Entry], o: ObjId) -> ObjectFacts
    ghost past: { List AnEntry }
    requires tell { Tell tables.now past }
    requires boot { tables.now.boot ≡ boot.now }
    requires declared { o < length boot.now.objects }
    ensures { result ≡ spec.object_facts boot.now past o }
{
    ObjectFacts {
        object: o.get(),
        first: first_task(boot, o),
        held: tables.object(o),
    }
}

#[tactic(auto, using(slow_kernel::proofs::Tables::table_more))]
fn object_table(
    alloc: Global,
    boot: &Boot,
    tables: &Tables,
    entries: &[Entry],
) -> Result<Vec<ObjectFacts>, NoMemory>
    requires tell { Tell tables.now (reverse entries.now) }
    requires boot { tables.now.boot ≡ boot.now }
    ensures { IfOk result (λ v. v.items ≡ map (spec.object_facts boot.now (reverse entries.now)) (objects_of boot.now)) }
{
    let mut table = Vec::new(alloc);
    let n = boot.objects().len();
    for k in 0..n {
        let facts = object_facts(boot, tables, entries, object_id(k));
        table.reserve(1).map_err(|_| NoMemory)?;
        table.push_reserved(facts);
    }
    Ok(table)
}

fn frame_counts(tables: &Tables, _entries: &[Entry]) -> FrameCounts
    ghost past: { List AnEntry }
    requires { Tell tables.now past }
    ensures { Frames result ≡ frames_reply tables.now.boot past }
{
    tables.frame_counts()
}

fn token_counts(tables: &Tables, _entries: &[Entry]) -> TokenCounts
    ghost past: { List AnEntry }
    requires { Tell tables.now past }
    ensures { Tokens result ≡ tokens_reply tables.now.boot past }
{
    tables.token_counts()
}

// The state after these entries, from the tables.
fn told_facts(
    alloc: Global,
    boot: &Boot,
    tables: &Tables,
    entries: &[Entry],
) -> Result<Facts, NoMemory>
    requires tell { Tell tables.now (reverse entries.now) }
    requires boot { tables.now.boot ≡ boot.now }
    ensures { IfOk result (λ f. f ≡ spec.facts_of boot.now (reverse entries.now)) }
{
    let tasks = task_table(alloc, boot, tables, entries)?;
    let objects = object_table(alloc, boot, tables, entries)?;
    Ok(Facts {
        entries: entries.len(),
        purged: purged(entries),
        killed: killed(entries),
        tasks,
        objects,
        frames: frame_counts(tables, entries),
        tokens: token_counts(tables, entries),
    })
}

impl Facts {
    /// The state after a history, from its tables. The tables are asked, and the entries are only counted.
    pub fn of_tables(
        alloc: Global,
        boot: &Boot,
        tables: &Tables,
        history: &EntryList,
    ) -> Result<Facts, NoMemory>
        requires tell { Tell tables.now (reverse history.now.list) }
        requires boot { tables.now.boot ≡ boot.now }
        ensures { IfOk result (λ f. f ≡ spec.facts_of boot.now (reverse history.now.list)) }
    {
        told_facts(alloc, boot, tables, history.as_slice())
    }

    /// The state after the kernel's history.
    pub fn of_kernel(
        alloc: Global,
        boot: &Boot,
        kernel: &Kernel<EntryList>,
    ) -> Result<Facts, NoMemory>
        requires { kernel.now.boot ≡ boot.now }
        ensures { IfOk result (λ f. f ≡ spec.facts_of boot.now (reverse kernel.now.history)) }
    {
        Facts::of_tables(alloc, boot, kernel.tables(), kernel.log())
    }
}
