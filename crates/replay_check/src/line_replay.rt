//! What a replay makes of a line.

/// How a line of a history's text was replayed.
#[derive(Clone, Copy, PartialEq, Eq, Debug)]
pub enum LineReplay {
    /// It is the line of an entry, which was taken: its call is the next of its script, and its reply the kernel's.
    Right,
    /// It begins as the line of an entry whose call is the next of its script, and doesn't go on with the kernel's
    /// reply. If it is the line of an entry, that was taken.
    Wrong,
    /// Nothing was done.
    Unread,
}
