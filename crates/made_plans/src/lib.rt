//! The plan that is made of a number: events that count up, and three functions over them.
//! Stands on event_plans for drafts, on cyclotron_jobs for replies, and on the kit's serde_json and uuid.
//! specs/Made.antt says what the plan is, event by event and function by function.
//! Above, `made_draft` is used: the draft of that plan, for numbers up to 3,000.
//! `made_is_checked` says that the plan is one that reading would take: its counts and its events are in bounds.
#![tactic(auto)]

mod events;
mod functions;
pub mod laws;
pub mod plan;

pub use laws::made_is_checked;
pub use plan::made_draft;

#[cfg(test)]
mod tests;
