//! Keepers of rows, which a queue tells of each row that it changes.
//! Stands on cyclotron_jobs and hog_outside.
//! Above, `Keeper` is used: Ok replaces the row of one job and no other, a refusal none, and Failed comes only
//! where the count of faults rose in the call. A keeper may tell its rows to contracts, and may be sure.
//! `NoKeeper` keeps nothing and is sure; `MemKeeper` holds rows in memory and fails at chosen calls.
#![tactic(auto)]

pub mod keeper;
pub mod memory;

pub use keeper::{KeepStop, Keeper, NoKeeper};
pub use memory::MemKeeper;
