//! The course of jobs: which inputs a job may begin with, where it stands after so many operations, and what its row says.
//! Stands on hog_program (programs and what they mean), vm_course and vm_state (runs and their texts), queue_history and
//! cyclotron_jobs (rows). specs/Inputs.antt, Course.antt, Jobs.antt and Rows.antt define these words, and Laws.antt the laws.
//! Above, the worker uses the laws of runs; a queue over `HogCourse` keeps what `keeps_the_meaning` says of its rows; and
//! `HogCourse::input` gives an input that the course takes.
#![tactic(auto)]

pub mod course;
pub mod laws;

pub use course::{HogCourse, InputStop, Prepared};
