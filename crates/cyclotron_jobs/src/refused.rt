//! Why a call under a lease is refused.

use lock_ids::lock::LockId;

/// Why a call under a lease is refused, in the order in which the causes are tested.
#[derive(Clone, Copy, Debug, PartialEq, Eq)]
pub enum LeaseStop {
    /// The job of the lock id isn't there.
    UnknownJob,
    /// The lock id isn't live; `live` is the one that is.
    WrongLock { live: Option<LockId> },
    /// What is flushed did not begin at the committed state of the job.
    NotThisRun,
    OutOfMemory,
    /// The keeper of rows failed.
    Keeper,
}

/// A refused flush, which hands its value back.
#[derive(Drop)]
pub struct Refused<T> {
    pub stop: LeaseStop,
    pub back: T,
}
