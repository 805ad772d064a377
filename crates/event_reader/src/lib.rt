//! Plans: the jobs that events make of destinations, and the runs of filters that broke.
//! Stands on event_plans and event_destinations for events and functions, on event_filter, and on hog_jobs for inputs.
//! Above, `read_plan` gives the plan of a JSON text, and `plan_of` that of a draft, or the first refusal (specs/Plans.antt).
//! What comes of an event that meets a function stands in specs/Meetings.antt; each job's input is one that the course takes.
//! The laws of laws.rt say that a text has one plan at most, or one refusal, and never both.
#![tactic(auto)]

mod gather;
pub mod laws;
mod meeting;
pub mod plan;
pub mod reader;
pub mod stop;

pub use plan::{BrokenRun, BrokenRuns, Plan, PlanJob, PlanJobs};
pub use reader::{plan_of, read_plan};
pub use stop::{Counted, Measured, PlanStop};

#[cfg(test)]
mod tests;
