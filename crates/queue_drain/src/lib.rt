//! Working the jobs of a queue to their ends, on one thread.
//! Stands on cyclotron_core (the queue), job_keeper, queue_history and cyclotron_jobs.
//! Above, `drain` is used: where it answers Ok, each job that was due has ended and no other has changed; in every case
//! it always returns, and takes, runs and replies of the moment are all that it appends. A `Worker` does the work on a
//! lease, outside the queue; the courses and the workers are those of the crates above.
#![tactic(auto)]

pub mod draining;
pub mod stop;
pub mod worker;

pub use draining::drain;
pub use stop::DrainStop;
pub use worker::Worker;
