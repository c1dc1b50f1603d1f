//! What can be wrong with a text.

use crate::entries::NoMemory;
use thiserror::Error;

/// Why a line of a text is refused. The program prints each as the word named beside it.
#[derive(Clone, Copy, PartialEq, Eq, Debug)]
pub enum Why {
    /// A fixed word was expected, or the line is too short or too long: `word`.
    Word,
    /// A plain decimal was expected: `number`.
    Number,
    /// A number is out of its range, or there is one thing too many: `limit`.
    Limit,
    /// The number of a declaration was used before: `repeated`.
    Repeated,
    /// A number that is not declared: `unknown`.
    Unknown,
    /// A call word of the other side: `wrongside`.
    WrongSide,
    /// The text stops before its last line: `noend`.
    NoEnd,
    /// Bytes follow the last line: `afterend`.
    AfterEnd,
    /// A line of a history is no entry: `entry`.
    Entry,
    /// The closing line counts the entries wrongly: `count`.
    Count,
}

/// Why a text was not read. Lines are numbered from 1.
#[derive(Clone, Copy, PartialEq, Eq, Debug, Error)]
pub enum ReadFault {
    #[error("bad input")]
    Bad { line: u32, why: Why },
    #[error("no memory")]
    NoMemory,
}

impl From<NoMemory> for ReadFault {
    ghost use Rattle.std.specs.Prelude.{◌≡◌};
    ghost use Rattle.kern_ids.specs.declared.faults.ReadFault.TheVariants.{NoMemory};

    ghost from_gives = { λ _ e. e ≡ NoMemory };

    fn from(_: NoMemory) -> Self {
        ReadFault::NoMemory
    }
}
