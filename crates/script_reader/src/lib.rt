//! Scripts: the steps that a JSON text gives for a play on a queue, or why it gives none.
//! Stands on hog_program for the sources of jobs, hog_jobs and cyclotron_jobs for their inputs, hog_json and serde_json.
//! Above, `read_script` gives a `Script`, whose type keeps that there are at most 65,536 steps, each fit to be played
//! (`IsFit` of specs/Steps.antt), or the first refusal (`IsNoScript` of specs/Script.antt); the laws of laws.rt say that
//! a text gives one list of steps or one refusal, and never both, so each refusal comes exactly where it should.
#![tactic(auto)]

mod element;
pub mod laws;
pub mod script;
mod source;
pub mod step;
mod values;

pub use script::{Script, StepList, read_script};
pub use step::{ScriptStop, Step};
