//! The plans of the scan.

use kern_ids::ids::ObjId;

/// What one scan does.
#[derive(Clone, Copy, PartialEq, Eq, Debug)]
pub enum ScanPlan {
    /// Nothing: enough frames are free.
    Enough,
    /// The Active page that was placed first becomes Inactive.
    Deactivate,
    /// An object is purged.
    Purge(ObjId),
    /// The Inactive page that was placed first becomes Active, since it was touched.
    Reactivate,
    /// The Inactive page that was placed first becomes Absent, since it was never written.
    Free,
    /// The Inactive page that was placed first becomes Stored.
    Compress,
    /// The Inactive page that was placed first becomes Active, since the store is full.
    Requeue,
    /// Nothing: there is no page to take.
    Idle,
}
