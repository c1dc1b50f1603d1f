use kern_ids::ids::ThreadId;
use kernel_model::boot::{ObjBoot, Side, TaskBoot};
use kernel_model::scenario::{Scenario, Script};
use kernel_model::script_call::ScriptCall;

/// What of a scenario is still to be handed out. A number is that of the next thing of its kind.
#[derive(Clone, Copy)]
pub enum Stage<'a> {
    /// All of it.
    Head(&'a Scenario),
    /// From the system line on.
    System(&'a Scenario),
    /// These tasks, and all after the tasks.
    Tasks(&'a Scenario, &'a [TaskBoot], usize),
    /// These objects, and all after the objects.
    Objects(&'a Scenario, &'a [ObjBoot], usize),
    /// The threads of these sides and scripts, and the order.
    Threads(&'a [ThreadId], &'a [Side], &'a [Script], usize),
    /// These calls, and then as above.
    Calls(&'a [ScriptCall], &'a [ThreadId], &'a [Side], &'a [Script], usize),
    /// These words of the order.
    Order(&'a [ThreadId]),
    /// The end line.
    End,
    /// Nothing.
    Closed,
}
