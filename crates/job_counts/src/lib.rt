//! How many lines of each kind the jobs of a queue show.
//! Stands on cyclotron_core (the queue), cyclotron_jobs and hog_value.
//! specs/Counts.antt counts prints, requests and ends of what was shown.
//! Above, `counts_of` is used: it counts what the rows of a queue have committed.
#![tactic(auto)]

pub mod counts;

pub use counts::{JobCounts, counts_of};
