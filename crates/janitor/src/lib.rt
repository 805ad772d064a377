//! The janitor, who sweeps a queue until no job is stale.
//! Stands on cyclotron_core.
//! Above, `Janitor::turn` is used: it appends a Swept entry for each job that it sweeps, all of one moment,
//! and nothing else; where it answers Ok, no job is stale at that moment.
//! A refused turn has appended the sweeps made before the refusal.
#![tactic(auto)]

pub mod turn;

pub use turn::Janitor;
