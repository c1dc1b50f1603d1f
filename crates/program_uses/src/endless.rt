//! An input without an end.

ghost use Rattle.std.specs.Prelude.{◌≤◌, List, ℕ, None, length, IfOk, OnErr};
ghost use Rattle.std.specs.Io.KnownBytes.{ReadConsumes};
ghost use Rattle.edge.specs.Ends.{Rose};

use edge::ends::{Failed, Source};

/// Bytes 0 without an end.
#[derive(Clone, Copy, Debug)]
pub struct Endless {
    faults: u64,
}

impl Endless {
    pub fn new() -> Endless {
        Endless { faults: 0 }
    }
}

impl Source for Endless {
    ghost left = { λ _s. None };

    ghost fault_count = { λ s. s.faults };

    fn read(&mut self, buf: &mut [u8]) -> Result<usize, Failed> {
        buf.fill(0);
        Ok(buf.len())
    }

    fn faults(&self) -> u64 {
        self.faults
    }
}
