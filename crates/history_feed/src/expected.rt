//! What may come next in a history's text.

/// What the next line has to be.
#[derive(Clone, Copy, PartialEq, Eq, Debug)]
pub enum Expected {
    /// The line that opens the history.
    Opening,
    /// An entry, or the closing line.
    Entries,
    /// Nothing: the closing line was read.
    Nothing,
}
