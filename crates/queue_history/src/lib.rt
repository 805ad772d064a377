//! What the history of a queue says of its jobs, and which histories are legal.
//! Stands on cyclotron_jobs, lock_ids and hog_value.
//! Above, contracts speak of the facts of a job, of due and stale jobs, of legal histories (`IsLegal`),
//! and of rows that say of their jobs what the history says (`RowIs`, `IsKept`); proofs use the laws on one more
//! entry. It runs only the orders of turns and silences, by which jobs are taken and swept, and the test of a silence.
#![tactic(auto)]

pub mod turn;

pub use turn::{Silence, Turn};

/// How many jobs a queue has at most.
pub const MOST_JOBS: usize = 16_384;
