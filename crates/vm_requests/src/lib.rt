//! How the requests of a run and the replies that it has taken in stand to each other. Nothing here runs.
//! Stands on vm_course, which has the machine, its course and its steps.
//! Above, `replies_answer_requests` is used: each reply that a run has taken in answers a request of its trace, and where
//! it waits there is one request more.
#![tactic(auto)]

pub mod laws;
