//! Where pages and volatile objects are.

use kern_ids::calls::Queue;

/// Where a page is.
#[derive(Clone, Copy, PartialEq, Eq, Debug)]
pub enum Place {
    Absent,
    Active,
    Inactive,
    Stored,
}

/// Where a page is, and the number of the entry that placed it there.
#[derive(Clone, Copy, PartialEq, Eq, Debug)]
pub struct Placed {
    pub place: Place,
    pub number: usize,
}

/// The queue and group in which a volatile object is, and the number of the entry that put it there.
#[derive(Clone, Copy, PartialEq, Eq, Debug)]
pub struct Standing {
    pub queue: Queue,
    pub group: u32,
    pub vstamp: usize,
}
