//! Why a line was not taken.

ghost use Rattle.std.specs.Prelude.{◌≡◌};

use kern_ids::entries::NoMemory;
use kern_ids::faults::{ReadFault, Why};

/// Why a line was not taken.
#[derive(Clone, Copy, Debug, PartialEq, Eq)]
pub enum LineFault {
    NoMemory,
    Bad(Why),
}

impl From<NoMemory> for LineFault {
    ghost use Rattle.scenario_text.specs.declared.fault.LineFault.TheVariants.{NoMemory};

    ghost from_gives = { λ _ e. e ≡ NoMemory };

    fn from(_: NoMemory) -> Self {
        LineFault::NoMemory
    }
}

impl From<Why> for LineFault {
    ghost use Rattle.scenario_text.specs.declared.fault.LineFault.TheVariants.{Bad};

    ghost from_gives = { λ why e. e ≡ Bad why };

    fn from(why: Why) -> Self {
        LineFault::Bad(why)
    }
}

impl LineFault {
    ghost use Rattle.scenario_text.specs.Gives.{fault_at};

    /// The fault, at a line's number.
    pub fn at(self, line: u32) -> ReadFault
        ensures { result ≡ fault_at self line }
    {
        match self {
            LineFault::NoMemory => ReadFault::NoMemory,
            LineFault::Bad(why) => ReadFault::Bad { line, why },
        }
    }
}
