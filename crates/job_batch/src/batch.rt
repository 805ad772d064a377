//! A batch of jobs.

ghost use Rattle.std.specs.Prelude.{◌≡◌, ◌≤◌, ◌<◌, [], length, IfOk, IfErr, OnOk, All};
ghost use Rattle.std.specs.List.{AllZip};
ghost use Rattle.queue_history.specs.declared.TheConstants.{MOST_JOBS};
ghost use Rattle.cyclotron_core.specs.Refusals.{KeeperRose};
ghost use Rattle.hog_jobs.specs.Rows.{KeepsTheMeaning};
ghost use Rattle.job_batch.specs.Batch.{CanRun, IsCompletedOf, IsKeeperStop, ShowsLines, inputs_in};
ghost use Rattle.job_batch.specs.Steps.{AddsRow, IsEndedOf, IsNewOf};

use crate::worker::ListWorker;
use cyclotron_core::queue::QueueState;
use cyclotron_core::stop::EnqueueStop;
use cyclotron_jobs::JobInput;
use hog_jobs::HogCourse;
use hog_jobs::laws::keeps_the_meaning;
use job_keeper::keeper::Keeper;
use job_lines::laws::rows_show_lines;
use queue_drain::{DrainStop, drain};
use std::alloc::Global;

/// A job that is to be enqueued.
#[derive(Drop)]
pub struct BatchJob {
    pub input: JobInput,
    pub priority: i16,
}

/// Why a batch is not worked to its end.
#[derive(Drop)]
pub enum BatchStop<K: Keeper> {
    /// The keeper of rows failed. The queue is as it was before that call.
    Keeper(QueueState<HogCourse, K>),
    OutOfMemory,
}

/// Enqueues the jobs in an empty queue over the keeper, and works on them at the moment 0 until all have ended: each time
/// the job that is due first runs for a slice, or else the request that is due first is answered.
pub fn run_batch<K: Keeper>(
    alloc: Global,
    batch: Vec<BatchJob>,
    keeper: K,
) -> Result<QueueState<HogCourse, K>, BatchStop<K>>
    requires can_run { All CanRun batch.items }
    requires few { length batch.items ≤ MOST_JOBS }
    ensures completed { IfOk result (λ queue. AllZip IsCompletedOf (inputs_in batch.items) queue.rows) }
    ensures lines { IfOk result (λ queue. AllZip ShowsLines (inputs_in batch.items) queue.rows) }
    ensures meaning { IfOk result (λ queue. KeepsTheMeaning queue.rows queue.history) }
    ensures keeper { IfErr result (λ stop. IsKeeperStop K.faults keeper stop) }
    ensures count { IfOk result (λ queue. K.faults keeper ≤ K.faults queue.keeper) }
{
    keeps_the_meaning();
    rows_show_lines();
    let mut queue = QueueState::new(alloc, keeper);
    let end = work_on(alloc, &mut queue, batch);
    let _ = queue.history();
    match end {
        Ok(()) => Ok(queue),
        Err(DrainStop::Keeper) => Err(BatchStop::Keeper(queue)),
        Err(DrainStop::OutOfMemory) => Err(BatchStop::OutOfMemory),
    }
}

/// Enqueues the jobs in an empty queue, and works on them until all have ended.
fn work_on<K: Keeper>(
    alloc: Global,
    queue: &mut QueueState<HogCourse, K>,
    batch: Vec<BatchJob>,
) -> Result<(), DrainStop>
    requires empty { queue.old.rows ≡ [] }
    requires can_run { All CanRun batch.items }
    requires few { length batch.items ≤ MOST_JOBS }
    ensures ended { OnOk result (AllZip IsEndedOf batch.items queue.new.rows) }
    ensures keeper { result ≡ Err DrainStop.Keeper → KeeperRose K.faults queue.old queue.new }
    ensures count { K.faults queue.old.keeper ≤ K.faults queue.new.keeper }
{
    enqueue_all(queue, batch)?;
    drain(alloc, queue, &mut ListWorker, 0)
}

/// Enqueues the jobs in an empty queue, in order.
fn enqueue_all<K: Keeper>(
    queue: &mut QueueState<HogCourse, K>,
    batch: Vec<BatchJob>,
) -> Result<(), DrainStop>
    requires empty { queue.old.rows ≡ [] }
    requires can_run { All CanRun batch.items }
    requires few { length batch.items ≤ MOST_JOBS }
    ensures new { OnOk result (AllZip IsNewOf batch.items queue.new.rows) }
    ensures keeper { result ≡ Err DrainStop.Keeper → KeeperRose K.faults queue.old queue.new }
    ensures count { K.faults queue.old.keeper ≤ K.faults queue.new.keeper }
{
    for job in batch {
        enqueue(queue, job)?;
    }
    Ok(())
}

/// Enqueues a job.
fn enqueue<K: Keeper>(queue: &mut QueueState<HogCourse, K>, job: BatchJob) -> Result<(), DrainStop>
    requires can_run { CanRun job }
    requires room { length queue.old.rows < MOST_JOBS }
    ensures added { OnOk result (AddsRow job queue.old.rows queue.new.rows) }
    ensures keeper { result ≡ Err DrainStop.Keeper → KeeperRose K.faults queue.old queue.new }
    ensures count { K.faults queue.old.keeper ≤ K.faults queue.new.keeper }
{
    let _ = queue.history();
    match queue.enqueue(job.input, job.priority, 0) {
        Ok(_number) => Ok(()),
        Err(EnqueueStop::Keeper) => Err(DrainStop::Keeper),
        Err(EnqueueStop::OutOfMemory) => Err(DrainStop::OutOfMemory),
        Err(EnqueueStop::Full) => unreachable!(),
    }
}
