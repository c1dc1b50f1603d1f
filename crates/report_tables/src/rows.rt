use kernel_tables::standing::{LiveTask, MappedObject};

/// The number of a task, and its state if it lives.
#[derive(Clone, Copy)]
pub struct TaskFacts {
    pub task: u32,
    pub life: Option<LiveTask>,
}

/// The number of an object, the first task that was declared for it, and its state if it is mapped.
#[derive(Clone, Copy)]
pub struct ObjectFacts {
    pub object: u32,
    pub first: u32,
    pub held: Option<MappedObject>,
}
