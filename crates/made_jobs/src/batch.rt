//! The jobs of a plan as a batch.

ghost use Rattle.std.specs.Prelude.{◌≡◌, IfOk, map};
ghost use Rattle.made_jobs.specs.Jobs.{batch_job};

use event_reader::{PlanJob, PlanJobs};
use job_batch::BatchJob;
use std::alloc::{AllocError, Global};

/// The jobs of a plan, to be enqueued in that order.
pub(crate) fn batch_of(alloc: Global, jobs: PlanJobs) -> Result<Vec<BatchJob>, AllocError>
    ensures { IfOk result (λ batch. batch.items ≡ map batch_job jobs) }
{
    let mut batch = Vec::new(alloc);
    for job in jobs.into_items() {
        let PlanJob {
            input,
            priority,
            ..
        } = job;
        batch.push(BatchJob { input, priority })?;
    }
    Ok(batch)
}
