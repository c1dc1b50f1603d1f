//! A scenario: what the kernel begins with, a script for each thread, and the order of turns.

ghost use Rattle.std.specs.Prelude.{◌≡◌, ◌≤◌, ◌<◌, ◌∷◌, ◌++◌, [], List, ℕ, length, All, IsTrue, OnOk, OnErr, slice_get, slice_set, slice_index_or, option_copied};
ghost use Rattle.kernel_model.specs.Valid.{IsValidParams, IsValidTask, IsValidObject, IsValidSide};
ghost use Rattle.kernel_model.specs.Histories as histories;
ghost use Rattle.kernel_model.specs.Scenario.{IsValid, IsValidForm, FitsForm, call_count, script, two};

use crate::boot::{Boot, ObjBoot, Params, Side, TaskBoot};
use crate::call_ranges::valid_call;
use crate::script_call::ScriptCall;
use kern_ids::calls::Call;
use kern_ids::entries::NoMemory;
use kern_ids::ids::ThreadId;
use std::alloc::Global;
use std::marker::Model;

/// In which form a scenario is written. In the first one all tasks have the delay of the whole and age
/// in band 1; in the second each task has its own.
#[derive(Clone, Copy, PartialEq, Eq, Debug)]
pub enum Form {
    One { delay: u32 },
    Two,
}

/// The calls of a thread.
#[derive(Drop)]
pub struct Script {
    alloc: Global,
    calls: Vec<ScriptCall>,
}

impl Model for Script {
    ghost use Rattle.std.specs.Prelude.{List};
    ghost use Rattle.kern_ids.specs.declared.calls.Call.{Call};

    ghost Value = { List Call };

    ghost view = { λ s. s.calls.items };
}

impl Script {
    fn new(alloc: Global) -> Script
        ensures { result ≡ [] }
    {
        Script {
            alloc,
            calls: Vec::new(alloc),
        }
    }

    /// The calls, in order.
    pub fn calls(&self) -> &[ScriptCall]
        ensures { result.now ≡ self.now }
    {
        &self.calls
    }

    fn len(&self) -> usize
        ensures { result ≡ length self.now }
    {
        self.calls.len()
    }

    fn get(&self, i: usize) -> Option<&ScriptCall>
        ensures { option_copied result ≡ slice_get self.now i }
    {
        self.calls.get(i)
    }

    fn add(&mut self, call: Call) -> Result<(), NoMemory>
        ensures ok { OnOk result (self.new ≡ self.old ++ call ∷ []) }
        ensures err { OnErr result (self.new ≡ self.old) }
    {
        let kept = ScriptCall::new(self.alloc, &call)?;
        self.calls.reserve(1).map_err(|_| NoMemory)?;
        self.calls.push_reserved(kept);
        Ok(())
    }
}

/// A valid scenario: at most 200,000 calls and as many words of the order.
#[derive(Drop)]
pub struct Scenario {
    form: Form,
    boot: Boot,
    scripts: Vec<Script>,
    order: Vec<ThreadId>,
    calls: usize,
}

impl Model for Scenario {
    ghost use Rattle.std.specs.Prelude.{◌≡◌};
    ghost use Rattle.kernel_model.specs.Scenario.{Plan, IsValid, call_count};

    ghost Value = { Plan };

    ghost view = { λ s. record { form = s.form; boot = s.boot; scripts = s.scripts.items; order = s.order.items } };

    ghost invariant = { λ s. (s.calls ≡ call_count s.scripts.items) × IsValid (record { form = s.form; boot = s.boot; scripts = s.scripts.items; order = s.order.items }) };
}

impl Scenario {
    /// A scenario with nothing declared.
    pub fn new(alloc: Global, form: Form, params: Params) -> Scenario
        requires form { IsValidForm form }
        requires params { IsValidParams params }
        ensures { result ≡ record { form = form; boot = record { params = params; tasks = []; objects = []; sides = [] }; scripts = []; order = [] } }
    {
        Scenario {
            form,
            boot: Boot::new(alloc, params),
            scripts: Vec::new(alloc),
            order: Vec::new(alloc),
            calls: 0,
        }
    }

    /// Every scenario is valid.
    pub fn valid(&self)
        ensures { IsValid self.now }
    {
        let _calls = self.calls;
    }

    /// The form.
    pub fn form(&self) -> Form
        ensures value { result ≡ self.now.form }
        ensures valid { IsValidForm result }
    {
        self.form
    }

    /// What the kernel begins with.
    pub fn boot(&self) -> &Boot
        ensures { result.now ≡ self.now.boot }
    {
        &self.boot
    }

    /// The number of all calls, at most 200,000.
    pub fn call_count(&self) -> usize
        ensures value { result ≡ call_count self.now.scripts }
        ensures most { result ≤ 200000 }
    {
        self.calls
    }

    /// The number of calls of a thread, 0 where it is not declared.
    pub fn script_len(&self, who: ThreadId) -> usize
        ensures { result ≡ length (script self.now who) }
    {
        match self.scripts.get(who.get() as usize) {
            Some(script) => script.len(),
            None => 0,
        }
    }

    /// Call i of a thread, if it has so many.
    pub fn script_call(&self, who: ThreadId, i: usize) -> Option<&ScriptCall>
        ensures { option_copied result ≡ slice_get (script self.now who) i }
    {
        match self.scripts.get(who.get() as usize) {
            Some(script) => script.get(i),
            None => None,
        }
    }

    /// The scripts, by the numbers of their threads.
    pub fn scripts(&self) -> &[Script]
        ensures { result.now ≡ self.now.scripts }
    {
        &self.scripts
    }

    /// The words of the order.
    pub fn order(&self) -> &[ThreadId]
        ensures { result.now ≡ self.now.order }
    {
        &self.order
    }

    /// The number of words of the order, at most 200,000.
    pub fn order_len(&self) -> usize
        ensures value { result ≡ length self.now.order }
        ensures most { result ≤ 200000 }
    {
        self.order.len()
    }

    /// Word i of the order, if it has so many.
    pub fn order_at(&self, i: usize) -> Option<ThreadId>
        ensures { result ≡ slice_get self.now.order i }
    {
        self.order.get(i).copied()
    }

    /// Declares a task.
    pub fn add_task(&mut self, t: TaskBoot) -> Result<(), NoMemory>
        requires room { length self.old.boot.tasks < 64 }
        requires valid { IsValidTask t }
        requires form { FitsForm self.old.form t }
        ensures ok { OnOk result (self.new ≡ record self.old { boot = record self.old.boot { tasks = self.old.boot.tasks ++ t ∷ [] } }) }
        ensures err { OnErr result (self.new ≡ self.old) }
    {
        let _band = t.band.get();
        self.boot.add_task(t)
    }

    /// Declares an object.
    pub fn add_object(&mut self, o: ObjBoot) -> Result<(), NoMemory>
        requires room { length self.old.boot.objects < 256 }
        requires valid { IsValidObject (length self.old.boot.tasks) o }
        ensures ok { OnOk result (self.new ≡ record self.old { boot = record self.old.boot { objects = self.old.boot.objects ++ o ∷ [] } }) }
        ensures err { OnErr result (self.new ≡ self.old) }
    {
        self.boot.add_object(o)
    }

    /// Declares a thread, with no calls.
    pub fn add_thread(&mut self, alloc: Global, side: Side) -> Result<(), NoMemory>
        requires room { length self.old.boot.sides < 32 }
        requires valid { IsValidSide (length self.old.boot.tasks) side }
        ensures ok { OnOk result (self.new ≡ record self.old { boot = record self.old.boot { sides = self.old.boot.sides ++ side ∷ [] }; scripts = self.old.scripts ++ [] ∷ [] }) }
        ensures err { OnErr result (self.new ≡ self.old) }
    {
        self.scripts.reserve(1).map_err(|_| NoMemory)?;
        self.boot.add_side(side)?;
        self.scripts.push_reserved(Script::new(alloc));
        Ok(())
    }

    /// Appends a call to a thread's script.
    pub fn add_call(&mut self, who: ThreadId, call: Call) -> Result<(), NoMemory>
        requires room { call_count self.old.scripts < 200000 }
        requires fits { IsTrue (histories.fits self.old.boot who call) }
        ensures ok { OnOk result (self.new ≡ record self.old { scripts = slice_set self.old.scripts who (script self.old who ++ call ∷ []) }) }
        ensures err { OnErr result (self.new ≡ self.old) }
    {
        valid_call(&call);
        self.scripts[who.get() as usize].add(call)?;
        self.calls += 1;
        Ok(())
    }

    /// Appends a word to the order.
    pub fn add_order(&mut self, who: ThreadId) -> Result<(), NoMemory>
        requires room { length self.old.order < 200000 }
        requires declared { who < length self.old.scripts }
        ensures ok { OnOk result (self.new ≡ record self.old { order = self.old.order ++ who ∷ [] }) }
        ensures err { OnErr result (self.new ≡ self.old) }
    {
        self.order.reserve(1).map_err(|_| NoMemory)?;
        self.order.push_reserved(who);
        Ok(())
    }

    /// The same in the second form. Takes no memory.
    pub fn into_two(self) -> Scenario
        ensures { result ≡ two self }
    {
        let Scenario {
            form: _,
            boot,
            scripts,
            order,
            calls,
        } = self;
        Scenario {
            form: Form::Two,
            boot,
            scripts,
            order,
            calls,
        }
    }
}
