//! The queue behind a lock.

ghost use Rattle.std.specs.Prelude.{ℕ, ◌≡◌, IfOk, IfSome, IsTrue, slice_get};
ghost use Rattle.cyclotron_core.specs.Changes.{is_unfinished};
ghost use Rattle.job_pool.specs.Pool.{HasGoneOn};

use cyclotron_core::queue::QueueState;
use cyclotron_core::stop::TakeStop;
use cyclotron_jobs::course::Course;
use cyclotron_jobs::lease::{Advance, Answered, Lease};
use cyclotron_jobs::refused::{LeaseStop, Refused};
use cyclotron_jobs::row::{JobState, QueueName};
use janitor::Janitor;
use job_keeper::keeper::Keeper;
use lock_ids::lock::LockId;
use std::alloc::AllocError;
use std::marker::{Brand, Model, PhantomData};

/// Where a queue stood when it went behind its lock, and which moments may come. A call that puts one there picks both.
pub trait Opening {
    ghost use Rattle.std.specs.Prelude.{ℕ};
    ghost use Rattle.job_pool.specs.Pool.{StandOf};

    ghost start: { StandOf };

    ghost moments: { ℕ → Type 0 };
}

impl Opening for Brand {
    ghost use Rattle.std.specs.Prelude.{[]};
    ghost use Rattle.job_pool.specs.Pool.{StandOf};

    ghost start = { record { rows = []; history = []; faults = 0 } };

    ghost moments = { λ _. Unit {0} };
}

/// What lies behind the lock: a queue that has gone on from where it stood. Each method but the first and the last is a
/// whole critical section: one call of the queue, or one turn of the janitor.
#[derive(Drop)]
pub struct Shared<C: Course, K: Keeper, J: Opening> {
    queue: QueueState<C, K>,
    // Each job below this number is completed or failed, so that the search for an open one is short.
    closed: u32,
    // A thread found no memory.
    is_short: bool,
    opening: PhantomData<J>,
}

impl<C: Course, K: Keeper, J: Opening> Model for Shared<C, K, J> {
    ghost use Rattle.cyclotron_core.specs.Queue.{QueueOf};
    ghost use Rattle.job_pool.specs.Pool.{HasGoneOn};

    ghost Value = { QueueOf K };

    ghost view = { λ s. s.queue };

    ghost invariant = { λ s. HasGoneOn J.moments K.faults J.start s.queue };
}

impl<C: Course, K: Keeper, J: Opening> Shared<C, K, J> {
    pub fn new(queue: QueueState<C, K>) -> Shared<C, K, J>
        requires { HasGoneOn J.moments K.faults J.start queue }
        ensures { result ≡ queue }
    {
        Shared {
            queue,
            closed: 0,
            is_short: false,
            opening: PhantomData,
        }
    }

    /// As `take` of the queue.
    pub fn take(&mut self, on: QueueName, now: u64) -> Result<Option<Lease<C>>, TakeStop>
        requires { J.moments now }
    {
        self.queue.take(on, now)
    }

    /// As `beat` of the queue.
    pub fn beat(&mut self, lock: LockId, now: u64) -> Result<(), LeaseStop>
        requires { J.moments now }
    {
        self.queue.beat(lock, now)
    }

    /// As `flush_run` of the queue.
    pub fn flush_run(&mut self, lock: LockId, run: Advance<C>) -> Result<(), Refused<Advance<C>>> {
        self.queue.flush_run(lock, run)
    }

    /// As `flush_reply` of the queue.
    pub fn flush_reply(
        &mut self,
        lock: LockId,
        answered: Answered<C>,
    ) -> Result<(), Refused<Answered<C>>> {
        self.queue.flush_reply(lock, answered)
    }

    /// As `put_back` of the queue.
    pub fn put_back(&mut self, lock: LockId, at: u64) -> Result<(), LeaseStop> {
        self.queue.put_back(lock, at)
    }

    /// A turn of the janitor.
    pub fn sweep(&mut self, now: u64) -> Result<u32, TakeStop>
        requires { J.moments now }
    {
        Janitor::turn(&mut self.queue, now)
    }

    /// A thread found no memory, so that all are to end.
    pub fn give_up(&mut self) {
        self.is_short = true;
    }

    /// Whether the threads are to end: each job is completed or failed, or one of them found no memory.
    pub fn is_over(&mut self) -> bool {
        self.closed = first_open(&self.queue, self.closed);
        self.is_short || self.queue.row(self.closed).is_none()
    }

    /// The queue, unless a thread found no memory.
    pub fn close(self) -> Result<QueueState<C, K>, AllocError>
        ensures same { IfOk result (λ queue. queue ≡ self) }
        ensures gone_on { IfOk result (HasGoneOn J.moments K.faults J.start) }
    {
        if self.is_short {
            return Err(AllocError);
        }
        Ok(self.queue)
    }
}

/// The first job from this number on that is neither completed nor failed; the number of jobs, or this number, where there
/// is none.
fn first_open<C: Course, K: Keeper>(queue: &QueueState<C, K>, from: u32) -> u32
    ensures { IfSome (slice_get queue.now.rows result) (λ row. IsTrue (is_unfinished row)) }
{
    let _ = queue.history();
    let mut job = from;
    'jobs: while let Some(row) = queue.row(job) {
        if row.state == JobState::Available || row.state == JobState::Running {
            return job;
        }
        job += 1;
    }
    job
}
