//! The jobs of the plan that is made of a number, worked to their ends.
//! Stands on made_plans and made_sources (that plan), event_reader (what jobs a plan has), job_batch (working them) and job_counts.
//! specs/Made.antt says which inputs and counts a number makes.
//! Above, `make` is used: its queue has the plan's jobs in order, all completed, its counts are those of what the jobs' sources
//! mean, and a keeper's fault comes only where its count rose.
#![tactic(auto)]

mod batch;
pub mod laws;
pub mod making;
mod plan;

pub use making::{Made, MadeCounts, MakeStop, make};
