//! What workers hold, and what a step says.

use cyclotron_jobs::lease::{Advance, Answered, Lease};
use cyclotron_jobs::refused::LeaseStop;
use hog_jobs::HogCourse;
use lock_ids::lock::LockId;

/// What a worker has made of its lease and is still to flush: the run of a slice, or the reply to its request.
#[derive(Drop)]
pub enum Product {
    Run(Advance<HogCourse>),
    Reply(Answered<HogCourse>),
}

/// What a worker holds: a lease, the lock under which it acts, which is another one than the lease's where it was
/// forged, and a product that is still to be flushed.
#[derive(Drop)]
pub struct Held {
    pub lock: LockId,
    pub lease: Lease<HogCourse>,
    pub product: Option<Product>,
}

/// What a step's line says behind the step's word.
#[derive(Clone, Copy, Debug, PartialEq, Eq)]
pub enum Said {
    /// The number of the job that was enqueued or swept.
    Job(u32),
    /// The queue is full.
    Full,
    /// A job was taken under this lock.
    Taken(LockId),
    /// The worker holds something.
    Busy,
    /// No job is due, or none is stale.
    Nothing,
    /// The worker doesn't hold what the step asks for.
    Idle,
    /// It was done.
    Fine,
    /// So many operations are done, and the machine goes on, waits for a reply, or has ended.
    Sliced(u64),
    Asks(u64),
    Ended(u64),
    /// The request has a reply of this status.
    Answered(u16),
    /// The job was swept for the third time.
    Poisoned(u32),
    /// A call under the lock was refused.
    Refused(LeaseStop),
    /// The keeper of rows failed at an enqueue, a take or a sweep.
    Keeper,
}
