//! The watcher: what the jobs of each destination have cost, and how healthy a destination is by that.
//! Stands on cyclotron_jobs (rows of jobs) and hog_value.
//! specs/Costs.antt says what a row costs, and from which costs on a destination is degraded or disabled.
//! Above, `Watcher` is used: contracts see it as the costs noted for each destination. Only `new` takes memory.
//! A destination's health depends on its own jobs alone (`notes_are_summed`, `own_notes_decide`).
#![tactic(auto)]

pub mod cost;
pub mod laws;
pub mod watcher;

pub use cost::{Health, cost_of};
pub use watcher::Watcher;
