//! What a kernel begins with.

ghost use Rattle.std.specs.Prelude.{◌≡◌, ◌≤◌, ◌<◌, ◌∷◌, ◌++◌, [], List, length, All, IfOk, OnOk, OnErr};
ghost use Rattle.kernel_model.specs.Valid.{IsValidParams, IsValidTask, IsValidObject, IsValidSide, IsValidBoot};
ghost use Rattle.kernel_model.specs.Histories as histories;

use crate::events::task_of;
use kern_ids::calls::{Call, Limit};
use kern_ids::entries::NoMemory;
use kern_ids::ids::{Band, ObjId, TaskId, ThreadId};
use kern_ids::lines::TaskLine;
use std::alloc::Global;
use std::marker::Model;

/// The numbers of the whole system, in pages.
#[derive(Clone, Copy, PartialEq, Eq, Debug)]
pub struct Params {
    /// The frames of memory, 1 to 4,096.
    pub frames: u32,
    /// The scan has enough where so many frames are free, at most 4,096.
    pub target: u32,
    /// The scan deactivates while fewer pages are Inactive, at most 4,096.
    pub inactive: u32,
    /// The pages that the compressor may hold, at most 65,536.
    pub store: u32,
    /// Jetsam is quiet where so many frames are free, at most 4,096.
    pub critical: u32,
}

/// A task at the start.
#[derive(Clone, Copy, PartialEq, Eq, Debug)]
pub struct TaskBoot {
    pub band: Band,
    /// The limit while it is active.
    pub active: Limit,
    /// The limit while it is inactive.
    pub inactive: Limit,
    /// Jetsam spares it but for a fatal limit.
    pub internal: bool,
    /// The Ticks until it is aged, 1 to 1,000.
    pub delay: u32,
    /// The band in which it ages, 1 or 2.
    pub ageing: Band,
}

/// An object: the tasks that may map it, in rising order, and its size, 1 to 256 pages.
#[derive(Clone, Copy, PartialEq, Eq, Debug)]
pub struct ObjBoot {
    pub tasks: TaskLine,
    pub pages: u32,
}

/// Whose thread a thread is.
#[derive(Clone, Copy, PartialEq, Eq, Debug)]
pub enum Side {
    Task(TaskId),
    Kernel,
}

/// The parameters, at most 64 tasks, at most 256 objects and the sides of at most 32 threads, all in
/// their ranges and by their numbers.
#[derive(Drop)]
pub struct Boot {
    params: Params,
    tasks: Vec<TaskBoot>,
    objects: Vec<ObjBoot>,
    sides: Vec<Side>,
}

impl Model for Boot {
    ghost use Rattle.kernel_model.specs.System.{System};

    ghost Value = { System };

    ghost use Rattle.kernel_model.specs.Valid.{IsValidBoot};

    ghost invariant = { λ b. IsValidBoot (record { params = b.params; tasks = b.tasks.items; objects = b.objects.items; sides = b.sides.items }) };

    ghost view = { λ b. record { params = b.params; tasks = b.tasks.items; objects = b.objects.items; sides = b.sides.items } };
}

impl Boot {
    /// A boot with no tasks, objects and threads.
    pub fn new(alloc: Global, params: Params) -> Boot
        requires { IsValidParams params }
        ensures { result ≡ record { params = params; tasks = []; objects = []; sides = [] } }
    {
        Boot {
            params,
            tasks: Vec::new(alloc),
            objects: Vec::new(alloc),
            sides: Vec::new(alloc),
        }
    }

    /// Every boot is in its ranges.
    pub fn valid(&self)
        ensures { IsValidBoot self.now }
    {
        let _params = self.params;
    }

    /// The parameters.
    pub fn params(&self) -> Params
        ensures value { result ≡ self.now.params }
        ensures valid { IsValidParams result }
    {
        self.params
    }

    /// The tasks, by their numbers.
    pub fn tasks(&self) -> &[TaskBoot]
        ensures value { result.now ≡ self.now.tasks }
        ensures few { length result.now ≤ 64 }
        ensures valid { All IsValidTask result.now }
    {
        &self.tasks
    }

    /// The objects, by their numbers.
    pub fn objects(&self) -> &[ObjBoot]
        ensures value { result.now ≡ self.now.objects }
        ensures few { length result.now ≤ 256 }
        ensures valid { All (IsValidObject (length self.now.tasks)) result.now }
    {
        &self.objects
    }

    /// The sides of the threads, by their numbers.
    pub fn sides(&self) -> &[Side]
        ensures value { result.now ≡ self.now.sides }
        ensures few { length result.now ≤ 32 }
        ensures valid { All (IsValidSide (length self.now.tasks)) result.now }
    {
        &self.sides
    }

    /// An equal boot.
    pub fn copy(&self, alloc: Global) -> Result<Boot, NoMemory>
        ensures { IfOk result (λ b. b ≡ self.now) }
    {
        Ok(Boot {
            params: self.params,
            tasks: self.tasks.as_slice().to_vec(alloc).map_err(|_| NoMemory)?,
            objects: self.objects.as_slice().to_vec(alloc).map_err(|_| NoMemory)?,
            sides: self.sides.as_slice().to_vec(alloc).map_err(|_| NoMemory)?,
        })
    }

    /// Whether the thread may make this call: it is declared, the call is one of its side, the tasks
    /// and objects that the call names are declared, a Write has bytes, and limits are of at most
    /// 65,536 pages.
    pub fn fits(&self, who: ThreadId, call: &Call) -> bool
        ensures { result ≡ histories.fits self.now who call.now }
    {
        (who.get() as usize) < self.sides.len()
            && is_task_call(call) == task_of(self, who).is_some()
            && self.names_fit(call)
    }

    fn declares_object(&self, o: ObjId) -> bool
        ensures { result ≡ histories.declares_object self.now o }
    {
        (o.get() as usize) < self.objects.len()
    }

    fn declares_task(&self, t: TaskId) -> bool
        ensures { result ≡ histories.declares_task self.now t }
    {
        (t.get() as usize) < self.tasks.len()
    }

    fn names_fit(&self, call: &Call) -> bool
        ensures { result ≡ histories.names_fit self.now call.now }
    {
        match call {
            Call::Map { obj } => self.declares_object(*obj),
            Call::Attach { obj } => self.declares_object(*obj),
            Call::Unmap { obj } => self.declares_object(*obj),
            Call::Write { obj, bytes, .. } => {
                self.declares_object(*obj) && !bytes.as_slice().is_empty()
            }
            Call::Read { obj, .. } => self.declares_object(*obj),
            Call::SetState { obj, .. } => self.declares_object(*obj),
            Call::GetState { obj } => self.declares_object(*obj),
            Call::SetBand { task, .. } => self.declares_task(*task),
            Call::SetLimits {
                task,
                active,
                inactive,
            } => self.declares_task(*task) && limit_fits(active) && limit_fits(inactive),
            _ => true,
        }
    }

    /// Adds a task. Its number is the number of tasks before it.
    pub fn add_task(&mut self, t: TaskBoot) -> Result<(), NoMemory>
        requires room { length self.old.tasks < 64 }
        requires valid { IsValidTask t }
        ensures ok { OnOk result (self.new ≡ record self.old { tasks = self.old.tasks ++ t ∷ [] }) }
        ensures err { OnErr result (self.new ≡ self.old) }
    {
        self.tasks.reserve(1).map_err(|_| NoMemory)?;
        self.tasks.push_reserved(t);
        Ok(())
    }

    /// Adds an object. Its number is the number of objects before it.
    pub fn add_object(&mut self, o: ObjBoot) -> Result<(), NoMemory>
        requires room { length self.old.objects < 256 }
        requires valid { IsValidObject (length self.old.tasks) o }
        ensures ok { OnOk result (self.new ≡ record self.old { objects = self.old.objects ++ o ∷ [] }) }
        ensures err { OnErr result (self.new ≡ self.old) }
    {
        let ObjBoot { tasks, pages } = o;
        self.objects.reserve(1).map_err(|_| NoMemory)?;
        self.objects.push_reserved(ObjBoot { tasks, pages });
        Ok(())
    }

    /// Adds a thread. Its number is the number of threads before it.
    pub fn add_side(&mut self, s: Side) -> Result<(), NoMemory>
        requires room { length self.old.sides < 32 }
        requires valid { IsValidSide (length self.old.tasks) s }
        ensures ok { OnOk result (self.new ≡ record self.old { sides = self.old.sides ++ s ∷ [] }) }
        ensures err { OnErr result (self.new ≡ self.old) }
    {
        self.sides.reserve(1).map_err(|_| NoMemory)?;
        self.sides.push_reserved(s);
        Ok(())
    }
}

fn limit_fits(limit: &Limit) -> bool
    ensures { result ≡ histories.limit_ok limit.now }
{
    limit.pages <= 65536
}

/// Whether the call is one of task threads, and not of kernel threads.
pub fn is_task_call(call: &Call) -> bool
    ensures { result ≡ histories.is_task_call call.now }
{
    match call {
        Call::PurgeOne
        | Call::Forced
        | Call::Scan
        | Call::Tick
        | Call::Jetsam
        | Call::SetBand { .. }
        | Call::SetLimits { .. }
        | Call::Info
        | Call::Purgeables => false,
        _ => true,
    }
}
