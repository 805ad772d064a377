//! Work on a lease: the machine of a job goes on from its saved text for a slice.
//! Stands on hog_jobs (the course), hog_program (the code of a source), hogvm (the machine's calls), vm_state (saved texts)
//! and cyclotron_jobs (leases).
//! specs/Work.antt says which run a slice of work on a lease gives; specs/Steps.antt serves the functions below it alone.
//! Above, `work` is used: its run is on course, and goes as far as the slice, a wait or the end.
#![tactic(auto)]

pub mod worker;

pub use worker::work;
