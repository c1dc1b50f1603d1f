//! Short lists that are kept in place, so that copying one takes no memory.

ghost use Rattle.std.specs.Prelude.{◌≡◌, ◌<◌, ◌≤◌, ◌+◌, ◌∷◌, ◌++◌, [], length, slice_get, IsSome, ◌↔◌, IfSome, SomeIff};

use crate::ids::TaskId;
use std::marker::Model;

/// At most 256 bytes.
#[derive(Clone, Copy, PartialEq, Eq, Debug)]
pub struct ByteLine {
    bytes: [u8; 256],
    len: usize,
}

impl Model for ByteLine {
    ghost use Rattle.std.specs.Prelude.{ℕ, List, length, take};
    ghost use Rattle.kern_ids.specs.Padded.{IsPadded, padded, padded-take, length-padded};
    ghost use Rattle.std.proofs.Common.{ap₂};

    ghost Value = { List ℕ };

    ghost view = { λ a. take a.len a.bytes };

    ghost invariant = { λ a. IsPadded 0 256 a.len a.bytes };

    ghost inverse = { λ xs. record { bytes = padded 0 256 xs; len = length xs } };

    ghost inverse_ok = { λ a h. ap₂ (λ xs n. record { bytes = xs; len = n }) (padded-take 0 256 a.len a.bytes h) (length-padded 0 256 a.len a.bytes h) };
}

impl ByteLine {
    /// The bytes as a line, if they are not more than 256.
    pub fn from_slice(bytes: &[u8]) -> Option<ByteLine>
        ensures { SomeIff result (length bytes.now ≤ 256) bytes.now }
    {
        if bytes.len() > 256 {
            return None;
        }
        let mut held = [0; 256];
        held[..bytes.len()].copy_from_slice(bytes);
        Some(ByteLine {
            bytes: held,
            len: bytes.len(),
        })
    }

    /// The bytes.
    pub fn as_slice(&self) -> &[u8]
        ensures value { result.now ≡ self.now }
        ensures bound { length result.now ≤ 256 }
    {
        &self.bytes[..self.len]
    }
}

/// At most 64 tasks.
#[derive(Clone, Copy, PartialEq, Eq, Debug)]
pub struct TaskLine {
    tasks: [TaskId; 64],
    len: usize,
}

impl Model for TaskLine {
    ghost use Rattle.std.specs.Prelude.{ℕ, List, length, take};
    ghost use Rattle.kern_ids.specs.Padded.{IsPadded, padded, padded-take, length-padded};
    ghost use Rattle.std.proofs.Common.{ap₂};

    ghost Value = { List ℕ };

    ghost view = { λ a. take a.len a.tasks };

    ghost invariant = { λ a. IsPadded 0 64 a.len a.tasks };

    ghost inverse = { λ xs. record { tasks = padded 0 64 xs; len = length xs } };

    ghost inverse_ok = { λ a h. ap₂ (λ xs n. record { tasks = xs; len = n }) (padded-take 0 64 a.len a.tasks h) (length-padded 0 64 a.len a.tasks h) };
}

impl TaskLine {
    /// No tasks.
    pub fn new() -> TaskLine
        ensures { result ≡ [] }
    {
        TaskLine {
            tasks: [TaskId::ZERO; 64],
            len: 0,
        }
    }

    /// The number of tasks.
    pub fn len(&self) -> usize
        ensures value { result ≡ length self.now }
        ensures bound { result ≤ 64 }
    {
        self.len
    }

    /// Task i of the list, if there are so many.
    pub fn get(&self, i: usize) -> Option<TaskId>
        ensures { result ≡ slice_get self.now i }
    {
        if i < self.len {
            Some(self.tasks[i])
        } else {
            None
        }
    }

    /// Appends a task.
    pub fn push(&mut self, t: TaskId)
        requires { length self.old < 64 }
        ensures { self.new ≡ self.old ++ t ∷ [] }
    {
        self.tasks[self.len] = t;
        self.len += 1;
    }
}

/// At most 1,100 bytes: a line of a text while it is put together.
#[derive(Drop)]
pub struct LineBuf {
    bytes: [u8; 1100],
    len: usize,
}

impl Model for LineBuf {
    ghost use Rattle.std.specs.Prelude.{◌≤◌, ℕ, List, take};

    ghost Value = { List ℕ };

    ghost view = { λ a. take a.len a.bytes };

    ghost invariant = { λ a. a.len ≤ 1100 };
}

impl LineBuf {
    /// No bytes.
    pub fn new() -> LineBuf
        ensures { result ≡ [] }
    {
        LineBuf {
            bytes: [0; 1100],
            len: 0,
        }
    }

    /// Takes all bytes away.
    pub fn clear(&mut self)
        ensures { self.new ≡ [] }
    {
        self.len = 0;
    }

    /// Appends bytes.
    pub fn push(&mut self, bytes: &[u8])
        requires { length self.old + length bytes.now ≤ 1100 }
        ensures bytes { self.new ≡ self.old ++ bytes.now }
        ensures room { length self.new ≡ length self.old + length bytes.now }
    {
        let end = self.len + bytes.len();
        self.bytes[self.len..end].copy_from_slice(bytes);
        self.len = end;
    }

    /// The bytes.
    pub fn as_slice(&self) -> &[u8]
        ensures value { result.now ≡ self.now }
        ensures bound { length result.now ≤ 1100 }
    {
        &self.bytes[..self.len]
    }
}
