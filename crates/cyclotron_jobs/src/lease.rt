//! What a worker holds of a job, and what it hands back.

use crate::course::Course;
use crate::input::{JobInput, Replies, Reply};
use crate::row::{After, QueueName};
use hog_value::items::Bytes;
use hog_value::trace::{Request, Shown};
use lock_ids::lock::LockId;
use std::marker::{Model, PhantomData};
use std::snapshot::Snapshot;

/// A job that is leased to a worker. It is on course with what its row had shown when it was taken.
#[derive(Drop)]
pub struct Lease<C: Course> {
    pub lock: LockId,
    pub queue: QueueName,
    pub input: JobInput,
    pub replies: Replies,
    /// How many operations were committed at the take.
    pub ops: u64,
    /// How often the job was put back since its last flush; 255 where it was more.
    pub tries: u8,
    pub saved: Bytes,
    /// The request to answer: there exactly on the queue `Fetch`.
    pub asks: Option<Request>,
    /// What the row had shown, for contracts alone.
    pub shown: Snapshot<Shown>,
    pub course: PhantomData<C>,
}

impl<C: Course> Model for Lease<C> {
    ghost use Rattle.cyclotron_jobs.specs.Leases.{LeaseOf};
    ghost use Rattle.cyclotron_jobs.specs.Course.{after_of, AsksOn};

    ghost Value = { LeaseOf };

    ghost view = { λ l. record {
      lock = l.lock;
      queue = l.queue;
      input = l.input;
      replies = l.replies;
      ops = l.ops;
      tries = l.tries;
      saved = l.saved;
      asks = l.asks;
      shown = l.shown.value;
    } };

    ghost invariant = { λ l.
        AsksOn l.queue l.asks
        × C.on_course l.input l.replies l.ops l.saved l.shown.value (after_of l.asks) };
}

/// A run of a leased job from the committed operations on, to be flushed. It ends on course.
#[derive(Drop)]
pub struct Advance<C: Course> {
    pub input: JobInput,
    pub replies: Replies,
    /// How many operations were done before the run.
    pub from: u64,
    /// How many are done after it; more than before.
    pub to: u64,
    pub saved: Bytes,
    pub shown: Shown,
    pub after: After,
    pub course: PhantomData<C>,
}

impl<C: Course> Model for Advance<C> {
    ghost use Rattle.std.specs.Prelude.{◌<◌};
    ghost use Rattle.cyclotron_jobs.specs.Leases.{AdvanceOf};

    ghost Value = { AdvanceOf };

    ghost view = { λ a. record {
      input = a.input;
      replies = a.replies;
      from = a.from;
      to = a.to;
      saved = a.saved;
      shown = a.shown;
      after = a.after;
    } };

    ghost invariant = { λ a.
        (a.from < a.to)
        × C.on_course a.input a.replies a.to a.saved a.shown a.after };
}

/// The reply to a leased job's request, to be flushed. It may come next.
#[derive(Drop)]
pub struct Answered<C: Course> {
    pub input: JobInput,
    pub replies: Replies,
    /// How many operations were done before the request was answered.
    pub from: u64,
    pub reply: Reply,
    /// The same reply again: one goes into the row and one into the history, so that a flush copies nothing.
    pub twin: Reply,
    pub course: PhantomData<C>,
}

impl<C: Course> Model for Answered<C> {
    ghost use Rattle.std.specs.Prelude.{◌≡◌, length};
    ghost use Rattle.cyclotron_jobs.specs.Leases.{AnsweredOf};

    ghost Value = { AnsweredOf };

    ghost view = { λ a. record {
      input = a.input;
      replies = a.replies;
      from = a.from;
      reply = a.reply;
    } };

    ghost invariant = { λ a.
        (a.twin ≡ a.reply)
        × C.reply_ok a.input (length a.replies) a.reply };
}
