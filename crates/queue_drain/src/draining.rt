//! Working the jobs of a queue to their ends.

ghost use Rattle.std.specs.Prelude.{ℕ, ◌≡◌, ◌≤◌, OnOk, OnErr, IfOk, IfNone, IfSome};
ghost use Rattle.std.specs.Bool.{OnTrue, OnFalse};
ghost use Rattle.std.specs.List.{AllZip};
ghost use Rattle.cyclotron_jobs.specs.declared.row.QueueName.{QueueName};
ghost use Rattle.queue_history.specs.Due.{NoneDue};
ghost use Rattle.cyclotron_core.specs.Changes.{IsUntouched};
ghost use Rattle.cyclotron_core.specs.Refusals.{KeeperRose};
ghost use Rattle.queue_drain.specs.Drained.{IsDrained, HasWorked};
ghost use Rattle.queue_drain.specs.Steps.{IsTaken, IsLive, IsFlushed, IsStep};
ghost use Rattle.queue_drain.specs.Stops.{IsStopOf};

use crate::stop::DrainStop;
use crate::worker::Worker;
use cyclotron_core::queue::QueueState;
use cyclotron_core::stop::TakeStop;
use cyclotron_jobs::course::Course;
use cyclotron_jobs::lease::Lease;
use cyclotron_jobs::refused::LeaseStop;
use cyclotron_jobs::row::QueueName;
use job_keeper::keeper::Keeper;
use std::alloc::Global;

/// Works on the jobs that are due at the moment, in milliseconds, until none is: takes the first from `Hog`, or else from
/// `Fetch`, has the worker run it or answer its request, and flushes that.
pub fn drain<C: Course, K: Keeper, W: Worker<C>>(
    alloc: Global,
    queue: &mut QueueState<C, K>,
    worker: &mut W,
    now: u64,
) -> Result<(), DrainStop>
    ensures drained { OnOk result (AllZip (IsDrained W.most_replies now) queue.old.rows queue.new.rows) }
    ensures none_due { OnOk result ((on : QueueName) → NoneDue queue.new.history on now) }

    // What was done before a refusal stands.
    ensures worked { HasWorked now queue.old queue.new }

    ensures keeper { result ≡ Err DrainStop.Keeper → KeeperRose K.faults queue.old queue.new }
    ensures count { K.faults queue.old.keeper ≤ K.faults queue.new.keeper }
{
    'jobs: while step(alloc, queue, worker, now)? {}
    let _ = queue.history();
    Ok(())
}

/// One job goes on, where one is due: it is taken, run or answered, and flushed. Answers whether one was due.
fn step<C: Course, K: Keeper, W: Worker<C>>(
    alloc: Global,
    queue: &mut QueueState<C, K>,
    worker: &mut W,
    now: u64,
) -> Result<bool, DrainStop>
    ensures some { IfOk result (λ some. OnTrue some (IsStep W.most_replies now queue.old queue.new)) }
    ensures none { IfOk result (λ some. OnFalse some (IsUntouched K.tells K.held queue.old queue.new)) }
    ensures none_due { IfOk result (λ some. OnFalse some ((on : QueueName) → NoneDue queue.new.history on now)) }
    ensures worked { HasWorked now queue.old queue.new }
    ensures keeper { result ≡ Err DrainStop.Keeper → KeeperRose K.faults queue.old queue.new }
    ensures count { K.faults queue.old.keeper ≤ K.faults queue.new.keeper }
{
    let _ = queue.history();
    let Some(lease) = take_due(queue, now)? else {
        return Ok(false);
    };
    go_on(alloc, queue, worker, &lease)?;
    Ok(true)
}

/// Leases the job that is due first on `Hog`, or else on `Fetch`.
fn take_due<C: Course, K: Keeper>(
    queue: &mut QueueState<C, K>,
    now: u64,
) -> Result<Option<Lease<C>>, TakeStop>
    ensures some { IfOk result (λ o. IfSome o (IsTaken K.tells K.held queue.old queue.new now)) }
    ensures none_due { IfOk result (λ o. IfNone o ((on : QueueName) → NoneDue queue.new.history on now)) }
    ensures idle { IfOk result (λ o. IfNone o (IsUntouched K.tells K.held queue.old queue.new)) }
    ensures err { OnErr result (IsUntouched K.tells K.held queue.old queue.new) }
    ensures keeper { result ≡ Err TakeStop.Keeper → KeeperRose K.faults queue.old queue.new }
    ensures count { K.faults queue.old.keeper ≤ K.faults queue.new.keeper }
{
    match queue.take(QueueName::Hog, now)? {
        Some(lease) => Ok(Some(lease)),
        None => queue.take(QueueName::Fetch, now),
    }
}

/// Has a leased job run or its request answered, and flushes that.
fn go_on<C: Course, K: Keeper, W: Worker<C>>(
    alloc: Global,
    queue: &mut QueueState<C, K>,
    worker: &mut W,
    lease: &Lease<C>,
) -> Result<(), DrainStop>
    requires { IsLive queue.old lease.now }
    ensures ok { OnOk result (IsFlushed W.most_replies queue.old queue.new lease.now.lock.job) }
    ensures err { OnErr result (IsUntouched K.tells K.held queue.old queue.new) }
    ensures keeper { result ≡ Err DrainStop.Keeper → KeeperRose K.faults queue.old queue.new }
    ensures count { K.faults queue.old.keeper ≤ K.faults queue.new.keeper }
{
    match lease.queue {
        QueueName::Hog => run_on(alloc, queue, worker, lease),
        QueueName::Fetch => reply_to(alloc, queue, worker, lease),
    }
}

/// Has a leased job run, and flushes the run.
fn run_on<C: Course, K: Keeper, W: Worker<C>>(
    alloc: Global,
    queue: &mut QueueState<C, K>,
    worker: &mut W,
    lease: &Lease<C>,
) -> Result<(), DrainStop>
    requires on_hog { lease.now.queue ≡ QueueName.Hog }
    requires live { IsLive queue.old lease.now }
    ensures ok { OnOk result (IsFlushed W.most_replies queue.old queue.new lease.now.lock.job) }
    ensures err { OnErr result (IsUntouched K.tells K.held queue.old queue.new) }
    ensures keeper { result ≡ Err DrainStop.Keeper → KeeperRose K.faults queue.old queue.new }
    ensures count { K.faults queue.old.keeper ≤ K.faults queue.new.keeper }
{
    let run = worker.work(alloc, lease)?;
    let _to = run.to;
    match queue.flush_run(lease.lock, run) {
        Ok(()) => Ok(()),
        Err(refused) => Err(stop_of(refused.stop)),
    }
}

/// Has the request of a leased job answered, and flushes the reply.
fn reply_to<C: Course, K: Keeper, W: Worker<C>>(
    alloc: Global,
    queue: &mut QueueState<C, K>,
    worker: &mut W,
    lease: &Lease<C>,
) -> Result<(), DrainStop>
    requires on_fetch { lease.now.queue ≡ QueueName.Fetch }
    requires live { IsLive queue.old lease.now }
    ensures ok { OnOk result (IsFlushed W.most_replies queue.old queue.new lease.now.lock.job) }
    ensures err { OnErr result (IsUntouched K.tells K.held queue.old queue.new) }
    ensures keeper { result ≡ Err DrainStop.Keeper → KeeperRose K.faults queue.old queue.new }
    ensures count { K.faults queue.old.keeper ≤ K.faults queue.new.keeper }
{
    let answered = worker.answer(alloc, lease)?;
    match queue.flush_reply(lease.lock, answered) {
        Ok(()) => Ok(()),
        Err(refused) => Err(stop_of(refused.stop)),
    }
}

/// Why a flush under the live lock, of what began at the committed state, is refused.
fn stop_of(stop: LeaseStop) -> DrainStop
    requires { IsStopOf stop }
    ensures { (result ≡ DrainStop.Keeper) → (stop ≡ LeaseStop.Keeper) }
{
    match stop {
        LeaseStop::OutOfMemory => DrainStop::OutOfMemory,
        LeaseStop::Keeper => DrainStop::Keeper,
        LeaseStop::UnknownJob | LeaseStop::WrongLock { .. } | LeaseStop::NotThisRun =>
            unreachable!(),
    }
}
