//! The rows of a queue.

ghost use Rattle.std.specs.Prelude.{◌≡◌, IfOk};

use crate::input::{JobInput, Replies};
use crate::sweeps::Sweeps;
use hog_value::items::Bytes;
use hog_value::trace::{Request, Shown};
use lock_ids::lock::LockId;
use std::alloc::AllocError;

/// The queues on which a job may stand: to be run, or to have its request answered.
#[derive(Clone, Copy, Debug, PartialEq, Eq)]
pub enum QueueName {
    Hog,
    Fetch,
}

/// A running job is leased. A completed one has ended, in any of the ends, and a failed one was swept three times.
#[derive(Clone, Copy, Debug, PartialEq, Eq)]
pub enum JobState {
    Available,
    Running,
    Completed,
    Failed,
}

/// What comes after a run: it goes on, waits for the reply to a request, or has ended.
#[derive(Drop)]
pub enum After {
    Hog,
    Fetch(Request),
    Finished,
}

/// The kind of an `After`.
#[derive(Clone, Copy, Debug, PartialEq, Eq)]
pub enum Next {
    Hog,
    Fetch,
    Finished,
}

/// What the queue keeps of a job. Moments are in milliseconds.
#[derive(Drop)]
pub struct Row {
    pub job: u32,
    pub input: JobInput,
    pub queue: QueueName,
    pub state: JobState,
    /// A lesser number is taken first.
    pub priority: i16,
    /// The moment from which on it may be taken.
    pub scheduled: u64,
    /// The live lease.
    pub lock: Option<LockId>,
    /// The moment of the last take or heartbeat.
    pub beat: u64,
    pub sweeps: Sweeps,
    /// The committed replies.
    pub replies: Replies,
    /// How many operations are committed.
    pub ops: u64,
    /// How often it was put back since its last flush; 255 where it was more.
    pub tries: u8,
    /// The text of the machine after these operations; empty before the first.
    pub saved: Bytes,
    /// The committed trace and end.
    pub shown: Shown,
    /// The request that it waits for.
    pub asks: Option<Request>,
}

/// A copy of a request, where one is there.
pub fn copy_asks(asks: &Option<Request>) -> Result<Option<Request>, AllocError>
    ensures { IfOk result (λ a. a ≡ asks.now) }
{
    match asks {
        None => Ok(None),
        Some(request) => Ok(Some(request.copy()?)),
    }
}

impl Row {
    pub fn copy(&self) -> Result<Row, AllocError>
        ensures { IfOk result (λ r. r ≡ self.now) }
    {
        Ok(Row {
            job: self.job,
            input: self.input.copy()?,
            queue: self.queue,
            state: self.state,
            priority: self.priority,
            scheduled: self.scheduled,
            lock: self.lock,
            beat: self.beat,
            sweeps: self.sweeps.copy(),
            replies: self.replies.copy()?,
            ops: self.ops,
            tries: self.tries,
            saved: self.saved.copy()?,
            shown: self.shown.copy()?,
            asks: copy_asks(&self.asks)?,
        })
    }
}
