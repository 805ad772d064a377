//! Fetchers, which get the replies to the requests of jobs.
//! Stands on cyclotron_jobs and hog_outside.
//! Above, `Fetcher` is used: an Ok reply is one that may come, and the fetcher's own where it tells it; a call fails only
//! where the count of faults rose, and what each fetcher may answer to how many tries is its own (`answers`).
//! `ListFetcher` and `FailingFetcher` answer from a job's list, and fail as they are told.
#![tactic(auto)]

pub mod failing;
pub mod fetcher;
pub mod listed;
#[cfg(test)]
mod tests;

pub use failing::FailingFetcher;
pub use fetcher::{FetchStop, Fetcher};
pub use listed::ListFetcher;
