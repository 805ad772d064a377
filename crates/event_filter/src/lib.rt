//! Filters of events: programs that are run on the globals of a destination, without replies, and say yes or no.
//! Stands on hog_program, on hogvm with the machine below it, and on hog_json for lines of ends.
//! Above, `passes` gives the verdict that the meaning of the filter gives on the globals (`Says` of specs/Verdicts.antt).
//! It returns for every filter that is built, by the bound of the machine's course.
//! Globals that are no JSON object of whole numbers are refused, and no others.
#![tactic(auto)]

pub mod filter;
mod rest;

pub use filter::{FilterStop, Verdict, passes};
