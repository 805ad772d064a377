//! The gate to the outside: the reply to the request of a leased job.
//! Stands on hog_jobs (the course), fetchers and cyclotron_jobs (leases).
//! Above, `answer` is used: it hands back what the lease began with and a reply that may come next, which is
//! the fetcher's own where the fetcher tells it, and the fetcher's answer to just that fetch at just so many tries.
//! It fails only where the fetcher's count of faults rose.
#![tactic(auto)]

pub mod gate;

pub use gate::{GateStop, answer};
