//! The history of a queue.

use crate::input::Reply;
use crate::row::{Next, QueueName};
use lock_ids::lock::LockId;

/// One step of a queue. Moments are in milliseconds.
#[derive(Drop)]
pub enum Entry {
    Queued {
        job: u32,
        priority: i16,
        at: u64,
    },
    Taken {
        job: u32,
        queue: QueueName,
        lock: LockId,
        now: u64,
    },
    Beat {
        job: u32,
        lock: LockId,
        now: u64,
    },
    /// Operations `from + 1` to `to` were done.
    Ran {
        job: u32,
        lock: LockId,
        from: u64,
        to: u64,
        next: Next,
    },
    Replied {
        job: u32,
        lock: LockId,
        reply: Reply,
    },
    Swept {
        job: u32,
        now: u64,
        beat: u64,
    },
    PutBack {
        job: u32,
        lock: LockId,
        at: u64,
    },
}
