//! Worker threads over one queue, for any course of jobs.
//! Stands on cyclotron_core (the queue), janitor, clocks, queue_drain (what goes on from a lease) and the crates below them.
//! Above, `run_jobs` and `finish_jobs` are used: where they answer Ok no job is unfinished, the history went on by entries of
//! work alone, with moments that the clock may show, and the jobs are the same. A `Hand` does the work on leases, outside the
//! lock, and a `Gate` may hold or lose a thread. Nothing is claimed of time, or that a call returns.
#![tactic(auto)]

pub mod gate;
pub mod hand;
pub mod pool;
mod serve;
pub mod shared;
#[cfg(test)]
mod tests;
pub mod totals;

pub use gate::{Gate, Open, Point, Word};
pub use hand::{AnswerStop, Hand, Post};
pub use pool::{PoolEnd, finish_jobs, run_jobs};
pub use totals::{Totals, totals_of};
