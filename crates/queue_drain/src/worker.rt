//! The trait of workers.

use cyclotron_jobs::course::Course;
use cyclotron_jobs::lease::{Advance, Answered, Lease};
use cyclotron_jobs::row::QueueName;
use std::alloc::{AllocError, Global};

/// Does the work on the leases of a queue over a course.
pub trait Worker<C: Course> {
    ghost use Rattle.std.specs.Prelude.{ℕ, ◌≡◌, ◌<◌, length, IfOk};
    ghost use Rattle.queue_drain.specs.Work.{IsRunFrom, IsAnswerTo};

    /// How many replies a job gets at most.
    ghost most_replies: { ℕ };

    /// A run of a job that is leased to be run, on from the lease.
    fn work(&mut self, alloc: Global, lease: &Lease<C>) -> Result<Advance<C>, AllocError>
        requires on_hog { lease.now.queue ≡ QueueName.Hog }
        ensures began { IfOk result (IsRunFrom lease.now) };

    /// The reply to the request of a job that is leased to have it answered.
    fn answer(&mut self, alloc: Global, lease: &Lease<C>) -> Result<Answered<C>, AllocError>
        requires on_fetch { lease.now.queue ≡ QueueName.Fetch }
        ensures began { IfOk result (IsAnswerTo lease.now) }
        ensures few { IfOk result (λ _. length lease.now.replies < most_replies) };
}
