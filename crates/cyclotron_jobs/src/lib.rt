//! What a queue of jobs holds and hands out: inputs, replies, rows, leases, and the entries of its history.
//! Stands on hog_value, hog_json and lock_ids.
//! Above, contracts see rows and entries as their fields, and lists of replies, sweeps and bytes as lists.
//! `Course` says what it is for a job to be on course; the types of a lease, of a run and of an answered
//! request keep that theirs is, so that a queue over any course can move them into its rows.
#![tactic(auto)]

pub mod course;
pub mod entry;
pub mod input;
pub mod lease;
pub mod refused;
pub mod row;
pub mod sweeps;

pub use course::Course;
pub use entry::Entry;
pub use input::{Answers, JobInput, Replies, Reply};
pub use lease::{Advance, Answered, Lease};
pub use refused::{LeaseStop, Refused};
pub use row::{After, JobState, Next, QueueName, Row};
pub use sweeps::Sweeps;
