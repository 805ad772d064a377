//! Laws of flushes, and of queues over the course of jobs. The functions do nothing: their clauses are the laws.

ghost use Rattle.hog_jobs.specs.Rows.{KeepsTheMeaning};
ghost use Rattle.script_steps.specs.Headline.{DeadFlushChangesNothing, LiveFlushIsDone};

use cyclotron_core::queue::QueueState;
use hog_jobs::HogCourse;
use job_keeper::keeper::Keeper;

/// What holds of a queue that began empty, whatever calls were made.
pub fn keeps_the_meaning<K: Keeper>(queue: &QueueState<HogCourse, K>)
    ensures { KeepsTheMeaning queue.now.rows queue.now.history }
{
    hog_jobs::laws::keeps_the_meaning();
    let _ = queue.history();
}

/// A flush under a lock that isn't live changes nothing.
pub fn dead_flush()
    ensures { DeadFlushChangesNothing }
{}

/// A flush under the live lock, begun at the committed state, is done, or a keeper's fault is said.
pub fn live_flush()
    ensures { LiveFlushIsDone }
{}
