//! Worker threads over a queue of Hog jobs.
//! Stands on job_pool (the pool over any course), hog_worker and fetch_gate (the work on leases), fetchers and clocks.
//! Above, `run_pool` and `finish` are used: where they answer Ok each job is completed or failed, the jobs are the same, each
//! row agrees with what its source means, and each moment is one that the clock may show.
//! Nothing is claimed of time, of the order of threads, or that a call returns.
#![tactic(auto)]

pub mod hand;
pub mod pool;
#[cfg(test)]
mod tests;

pub use hand::HogHand;
pub use pool::{Closed, PoolEnd, finish, run_pool};
