//! The lines of a scenario, each with its end.

ghost use Rattle.std.specs.Prelude.{◌≡◌, ◌≤◌, ◌<◌, ◌+◌, ◌*◌, ◌++◌, ◌∷◌, [], length, map, codes};
ghost use Rattle.std.specs.Fmt.{decimal};
ghost use Rattle.line_text.specs.Cut.{line_of, spaced};
ghost use Rattle.line_text.specs.Calls.{limit_words, call_words};
ghost use Rattle.scenario_text.specs.Text.{head_words, delay_words, system_words, ages_words, internal_words, task_words, object_words, side_words, thread_words};

use kern_ids::calls::{Call, Limit};
use kern_ids::lines::{LineBuf, TaskLine};
use kernel_model::boot::{ObjBoot, Params, Side, TaskBoot};
use kernel_model::scenario::Form;
use line_text::{push_call, push_decimal, push_limit};

// Appends a fixed part and a number.
fn push_field(line: &mut LineBuf, name: &[u8], n: u32)
    requires { length line.old + length name.now + 20 ≤ 1100 }
    ensures bytes { line.new ≡ line.old ++ (name.now ++ decimal n) }
    ensures room { length line.new ≤ length line.old + length name.now + 10 }
{
    line.push(name);
    push_decimal(line, u64::from(n));
}

// Appends a fixed part and a limit.
fn push_limit_field(line: &mut LineBuf, name: &[u8], limit: &Limit)
    requires { length line.old + length name.now + 26 ≤ 1100 }
    ensures bytes { line.new ≡ line.old ++ (name.now ++ line_of (limit_words limit.now)) }
    ensures room { length line.new ≤ length line.old + length name.now + 16 }
{
    line.push(name);
    push_limit(line, limit);
}

/// Puts together the first line.
pub fn push_head_line(line: &mut LineBuf, form: Form)
    requires { line.old ≡ [] }
    ensures { line.new ≡ line_of (head_words form) ++ 10 ∷ [] }
{
    match form {
        Form::One { .. } => line.push(b"jetlab 1\n"),
        Form::Two => line.push(b"jetlab 2\n"),
    }
}

// Appends the delay of the first form.
fn push_delay(line: &mut LineBuf, form: Form)
    requires { length line.old + 30 ≤ 1100 }
    ensures bytes { line.new ≡ line.old ++ spaced (delay_words form) }
    ensures room { length line.new ≤ length line.old + 30 }
{
    if let Form::One { delay } = form {
        push_field(line, b" delay ", delay);
    }
}

/// Puts together the system line.
pub fn push_system_line(line: &mut LineBuf, form: Form, params: Params)
    requires { line.old ≡ [] }
    ensures { line.new ≡ line_of (system_words form params) ++ 10 ∷ [] }
{
    push_field(line, b"system frames ", params.frames);
    push_field(line, b" target ", params.target);
    push_field(line, b" inactive ", params.inactive);
    push_field(line, b" store ", params.store);
    push_field(line, b" critical ", params.critical);
    push_delay(line, form);
    line.push(b"\n");
}

// Appends the delay and the ageing band of the second form.
fn push_ages(line: &mut LineBuf, form: Form, task: &TaskBoot)
    requires { length line.old + 60 ≤ 1100 }
    ensures bytes { line.new ≡ line.old ++ spaced (ages_words form task.now) }
    ensures room { length line.new ≤ length line.old + 60 }
{
    if let Form::Two = form {
        push_field(line, b" delay ", task.delay);
        push_field(line, b" ageing ", task.ageing.get());
    }
}

// Appends the mark of an internal task.
fn push_internal(line: &mut LineBuf, task: &TaskBoot)
    requires { length line.old + 9 ≤ 1100 }
    ensures bytes { line.new ≡ line.old ++ spaced (internal_words task.now) }
    ensures room { length line.new ≤ length line.old + 9 }
{
    if task.internal {
        line.push(b" internal");
    }
}

/// Puts together a task's line.
pub fn push_task_line(line: &mut LineBuf, form: Form, n: usize, task: &TaskBoot)
    requires empty { line.old ≡ [] }
    requires number { n < 64 }
    ensures { line.new ≡ line_of (task_words form n task.now) ++ 10 ∷ [] }
{
    push_field(line, b"task ", n as u32);
    push_field(line, b" band ", task.band.get());
    push_limit_field(line, b" active ", &task.active);
    push_limit_field(line, b" inactive ", &task.inactive);
    push_ages(line, form, task);
    push_internal(line, task);
    line.push(b"\n");
}

// Appends tasks, each after a space.
fn push_sharers(line: &mut LineBuf, tasks: &TaskLine)
    requires { length line.old ≤ 40 }
    ensures bytes { line.new ≡ line.old ++ spaced (map decimal tasks.now) }
    ensures room { length line.new ≤ 800 }
{
    let count = tasks.len();
    'sharers: for i in 0..count {
        match tasks.get(i) {
            Some(t) => push_field(line, b" ", t.get()),
            None => unreachable!(),
        }
    }
}

/// Puts together an object's line.
pub fn push_object_line(line: &mut LineBuf, n: usize, object: &ObjBoot)
    requires empty { line.old ≡ [] }
    requires number { n < 256 }
    ensures { line.new ≡ line_of (object_words n object.now) ++ 10 ∷ [] }
{
    push_field(line, b"object ", n as u32);
    line.push(b" task");
    push_sharers(line, &object.tasks);
    push_field(line, b" pages ", object.pages);
    line.push(b"\n");
}

/// Puts together a thread's line.
pub fn push_thread_line(line: &mut LineBuf, n: usize, side: &Side)
    requires empty { line.old ≡ [] }
    requires number { n < 32 }
    ensures { line.new ≡ line_of (thread_words n side.now) ++ 10 ∷ [] }
{
    push_field(line, b"thread ", n as u32);
    match side {
        Side::Task(t) => push_field(line, b" task ", t.get()),
        Side::Kernel => line.push(b" kernel"),
    }
    line.push(b"\n");
}

/// Puts together a call's line.
pub fn push_call_line(line: &mut LineBuf, call: &Call)
    requires { line.old ≡ [] }
    ensures { line.new ≡ line_of (call_words call.now) ++ 10 ∷ [] }
{
    push_call(line, call);
    line.push(b"\n");
}

/// Puts together a word of the order line with the space before it.
pub fn push_order_word(line: &mut LineBuf, n: u32)
    requires { line.old ≡ [] }
    ensures { line.new ≡ 32 ∷ decimal n }
{
    push_field(line, b" ", n);
}

/// Puts together a line or a part of one that is fixed.
pub fn push_fixed(line: &mut LineBuf, bytes: &[u8])
    requires empty { line.old ≡ [] }
    requires short { length bytes.now ≤ 16 }
    ensures { line.new ≡ bytes.now }
{
    line.push(bytes);
}
