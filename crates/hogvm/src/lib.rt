//! The calls of a machine: it is started, it runs slice by slice, and it takes in replies.
//! Stands on vm_operations (the machine), vm_frames (the code as it is read), hog_operators (the first cells), hog_json, and
//! cyclotron_jobs (replies).
//! specs/Calls.antt says which texts are globals, and how a slice ends.
//! Above, the contracts of `Steps` are used: a machine is the run of `begun`, `run_for` and `resumed` of vm_course.
#![tactic(auto)]

mod slice;
mod start;
pub mod steps;

pub use steps::{Pause, StartStop, Steps};
