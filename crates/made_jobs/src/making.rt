//! Making the plan of a number, and working its jobs to their ends.

ghost use Rattle.std.specs.Prelude.{◌≡◌, ◌≤◌, List, IfOk, IfErr};
ghost use Rattle.std.specs.List.{AllZip};
ghost use Rattle.cyclotron_jobs.specs.declared.input.JobInput.{JobInput};
ghost use Rattle.hog_jobs.specs.Rows.{KeepsTheMeaning};
ghost use Rattle.made_jobs.specs.Made.{Makes, IsCompletedOf};
ghost use Rattle.made_jobs.specs.Stops.{IsKeeperStop};

use crate::batch::batch_of;
use crate::laws::made_jobs_are_small;
use crate::plan::made_plan;
use cyclotron_core::queue::QueueState;
use hog_jobs::HogCourse;
use job_batch::{BatchStop, run_batch};
use job_counts::{JobCounts, counts_of};
use job_keeper::keeper::Keeper;
use std::alloc::{AllocError, Global};

/// How many events and jobs there are, and how many lines of each kind the jobs show.
#[derive(Clone, Copy, Debug, PartialEq, Eq)]
pub struct MadeCounts {
    pub events: u32,
    pub jobs: u32,
    pub lines: JobCounts,
}

/// The queue at the end of its jobs, and the counts.
#[derive(Drop)]
pub struct Made<K: Keeper> {
    pub jobs: QueueState<HogCourse, K>,
    pub counts: MadeCounts,
}

/// Why the jobs are not worked to their ends.
#[derive(Drop)]
pub enum MakeStop<K: Keeper> {
    /// The keeper of rows failed. The queue is as it was before that call.
    Keeper(QueueState<HogCourse, K>),
    OutOfMemory,
}

/// Makes the plan of `n`, enqueues its jobs in an empty queue over the keeper, and works on them at the moment 0 until all
/// have ended.
pub fn make<K: Keeper>(alloc: Global, n: u32, keeper: K) -> Result<Made<K>, MakeStop<K>>
    requires { n ≤ 3000 }
    ensures made { IfOk result (λ made. (inputs : List JobInput)
        × Makes n inputs made.counts × AllZip IsCompletedOf inputs made.jobs.rows) }
    ensures meaning { IfOk result (λ made. KeepsTheMeaning made.jobs.rows made.jobs.history) }
    ensures keeper { IfErr result (λ stop. IsKeeperStop K.faults keeper stop) }
    ensures count { IfOk result (λ made. K.faults keeper ≤ K.faults made.jobs.keeper) }
{
    made_jobs_are_small();
    let Ok(plan) = made_plan(alloc, n) else {
        return Err(MakeStop::OutOfMemory);
    };
    let events = plan.events;
    let Ok(batch) = batch_of(alloc, plan.jobs) else {
        return Err(MakeStop::OutOfMemory);
    };
    let jobs = batch.len() as u32;
    match run_batch(alloc, batch, keeper) {
        Ok(queue) => {
            let lines = counts_of(&queue);
            let counts = MadeCounts {
                events,
                jobs,
                lines,
            };
            Ok(Made {
                jobs: queue,
                counts,
            })
        }
        Err(BatchStop::Keeper(queue)) => Err(MakeStop::Keeper(queue)),
        Err(BatchStop::OutOfMemory) => Err(MakeStop::OutOfMemory),
    }
}
