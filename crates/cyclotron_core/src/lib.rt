//! The queue of leased jobs, over any course and any keeper of rows.
//! Stands on index_lists for the lists of its jobs, on queue_history, job_keeper, cyclotron_jobs, lock_ids and hog_outside.
//! Above, contracts see its rows by job number, its history, the room for more entries and its keeper (`QueueOf`).
//! Each call appends its one entry and changes the one row, or is refused and leaves all as before; `history` says
//! what always holds: the history is legal, each row is the row of its job, each job is on course, the keeper holds it.
#![tactic(auto)]

mod listing;
pub mod put;
pub mod queue;
pub mod stop;

pub use cyclotron_jobs::refused::{LeaseStop, Refused};
pub use queue::QueueState;
pub use stop::{EnqueueStop, TakeStop};
