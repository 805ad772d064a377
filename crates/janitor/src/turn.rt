//! A turn of the janitor.

use cyclotron_core::queue::QueueState;
use cyclotron_core::stop::TakeStop;
use cyclotron_jobs::course::Course;
use job_keeper::keeper::Keeper;

/// Sweeps queues.
pub struct Janitor;

impl Janitor {
    ghost use Rattle.std.specs.Prelude.{ℕ, ◌≡◌, ◌≤◌, IfOk, OnErr};
    ghost use Rattle.queue_history.specs.Due.{NoneStale};
    ghost use Rattle.cyclotron_core.specs.Refusals.{KeeperRose};
    ghost use Rattle.janitor.specs.Turn.{HasSwept};

    /// Sweeps until no job is stale at the moment, in milliseconds, and answers how many were swept.
    pub fn turn<C: Course, K: Keeper>(
        queue: &mut QueueState<C, K>,
        now: u64,
    ) -> Result<u32, TakeStop>
        ensures swept { IfOk result (λ n. HasSwept now n queue.old queue.new) }
        ensures none_left { IfOk result (λ _. NoneStale queue.new.history now) }

        // The sweeps before a refusal stand, and some job is still stale.
        ensures err { OnErr result ((n : ℕ) × HasSwept now n queue.old queue.new) }
        ensures some_left { OnErr result (¬ (NoneStale queue.new.history now)) }
        ensures keeper { result ≡ Err TakeStop.Keeper → KeeperRose K.faults queue.old queue.new }
        ensures count { K.faults queue.old.keeper ≤ K.faults queue.new.keeper }
    {
        let before = queue.history().len();
        'sweeps: loop {
            match queue.sweep_one(now) {
                Ok(Some(_job)) => {}
                Ok(None) => return Ok((queue.history().len() - before) as u32),
                Err(stop) => return Err(stop),
            }
        }
    }
}

#[cfg(test)]
mod tests {
    use super::*;
    use cyclotron_jobs::input::{Answers, JobInput};
    use cyclotron_jobs::row::QueueName;
    use hog_value::text::HogText;
    use job_keeper::keeper::NoKeeper;
    use std::alloc::{AllocError, Global};

    /// It takes any input, any reply may come, and a job is always on course.
    #[derive(Drop)]
    struct Toy;

    impl Course for Toy {
        ghost takes = { λ _. Unit {0} };

        ghost on_course = { λ _ _ _ _ _ _. Unit {0} };

        ghost reply_ok = { λ _ _ _. Unit {0} };

        ghost begins = { λ _ _. tt };

        ghost goes_on = { λ _ _ _ _ _ _ _ _ _ _. tt };
    }

    fn input(alloc: Global) -> Result<JobInput, AllocError> {
        Ok(JobInput {
            source: HogText::from_string(String::from_str(alloc, "return 1;")?),
            globals: HogText::from_string(String::from_str(alloc, "{}")?),
            answers: Answers::Free,
        })
    }

    /// Adds a job and takes it at moment 0.
    fn lease_one(alloc: Global, queue: &mut QueueState<Toy, NoKeeper>) -> bool {
        let Ok(input) = input(alloc) else {
            return false;
        };
        queue.enqueue(input, 0, 0).is_ok() && queue.take(QueueName::Hog, 0).is_ok()
    }

    #[test]
    fn sweeps_a_stale_job(rt: HostRuntime) {
        let mut queue = QueueState::<Toy, NoKeeper>::new(rt.alloc(), NoKeeper);
        assert!(rt; lease_one(rt.alloc(), &mut queue));
        assert_eq!(rt; Janitor::turn(&mut queue, 30000), Ok(1));
    }
}
