//! Points at which a program can hold a call, to see how calls of several threads meet.

use kern_ids::ids::ThreadId;

/// A moment of a call.
#[derive(Clone, Copy, PartialEq, Eq, Debug)]
pub enum Point {
    /// The word of an object was taken.
    ObjectTaken,
    /// The turn is about to be taken.
    BeforeTurn,
    /// The turn was left with an entry.
    AfterTurn,
}

/// What is called at each moment. It may wait.
pub trait Gate {
    fn at(&self, who: ThreadId, point: Point);
}

/// It does nothing.
#[derive(Clone, Copy, Debug)]
pub struct NoGate;

impl Gate for NoGate {
    fn at(&self, _who: ThreadId, _point: Point) {}
}
