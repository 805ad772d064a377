//! Who does the work on leases.

use cyclotron_jobs::course::Course;
use cyclotron_jobs::lease::{Advance, Answered, Lease};
use cyclotron_jobs::row::QueueName;
use std::alloc::{AllocError, Global};

/// Why a request is not answered.
#[derive(Clone, Copy, Debug, PartialEq, Eq)]
pub enum AnswerStop {
    /// There is no reply this time, and the job is to be put back.
    Failed,
    OutOfMemory,
}

impl From<AllocError> for AnswerStop {
    ghost use Rattle.std.specs.Prelude.{◌≡◌};
    ghost use Rattle.job_pool.specs.declared.hand.AnswerStop.TheVariants.{OutOfMemory};

    ghost from_gives = { λ _ stop. stop ≡ OutOfMemory };

    fn from(_want: AllocError) -> AnswerStop {
        AnswerStop::OutOfMemory
    }
}

/// Does the work on the leases of a queue over a course.
pub trait Hand<C: Course>: Drop {
    ghost use Rattle.std.specs.Prelude.{ℕ, ◌≡◌, ◌≤◌, IfOk};
    ghost use Rattle.hog_outside.specs.Faults.{Rose};
    ghost use Rattle.queue_drain.specs.Work.{IsRunFrom, IsAnswerTo};

    /// How many answers failed. It never falls, and stands still at its greatest.
    ghost faults: { Self → ℕ };

    /// A run of a job that is leased to be run, on from the lease.
    fn work(&mut self, alloc: Global, lease: &Lease<C>) -> Result<Advance<C>, AllocError>
        requires on_hog { lease.now.queue ≡ QueueName.Hog }
        ensures began { IfOk result (IsRunFrom lease.now) }
        ensures count { faults self.old ≤ faults self.new };

    /// The reply to the request of a job that is leased to have it answered.
    fn answer(&mut self, alloc: Global, lease: &Lease<C>) -> Result<Answered<C>, AnswerStop>
        requires on_fetch { lease.now.queue ≡ QueueName.Fetch }
        ensures began { IfOk result (IsAnswerTo lease.now) }
        ensures failed { result ≡ Err AnswerStop.Failed → Rose (faults self.old) (faults self.new) }
        ensures count { faults self.old ≤ faults self.new };
}

/// A thread's place in a pool.
#[derive(Drop)]
pub struct Post<W: Drop> {
    /// What the gate knows the thread by.
    pub number: u32,
    /// The queue that it takes from first.
    pub first: QueueName,
    pub hand: W,
}
