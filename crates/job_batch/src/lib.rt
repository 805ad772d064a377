//! A batch of jobs: enqueued in an empty queue over a keeper, and worked to their ends on one thread.
//! Stands on queue_drain (the order of the work), hog_worker and fetch_gate (the work itself), cyclotron_core and hog_jobs (the
//! queue), and job_lines (what a job shows by its input alone).
//! Above, `run_batch` is used: at Ok the rows are those of the batch, in order, all completed, and each shows what its input
//! says; the keeper's fault comes only where its count rose, and the queue then keeps the meaning of its jobs.
#![tactic(auto)]

pub mod batch;
pub mod worker;

pub use batch::{BatchJob, BatchStop, run_batch};
