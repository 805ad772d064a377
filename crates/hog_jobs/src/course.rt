//! The course of jobs.

ghost use Rattle.std.specs.Prelude.{◌≡◌, ◌<◌, ◌≤◌, ◌↔◌, None, IfOk, length};
ghost use Rattle.serde_json.specs.Data.{depth};
ghost use Rattle.serde_json.specs.Find.{as_object};
ghost use Rattle.serde_json.specs.View.{view};
ghost use Rattle.hog_json.specs.Nulled.{count_nulled, nulled_text};
ghost use Rattle.hog_jobs.specs.Inputs.{IsInput, most_globals};

use cyclotron_jobs::{Answers, Course, JobInput};
use hog_json::{GlobalsStop, globals_text};
use hog_program::Program;
use serde_json::Value;
use std::alloc::{AllocError, Global};

/// The most bytes of the text of globals.
const MOST_GLOBALS: usize = 65_600;

/// The mark of a queue whose jobs stand where the machine stands on the codes of their sources.
#[derive(Drop)]
pub struct HogCourse;

impl Course for HogCourse {
    ghost use Rattle.cyclotron_jobs.specs.Replies.{AllowsReply};
    ghost use Rattle.hog_jobs.specs.Inputs.{IsInput};
    ghost use Rattle.hog_jobs.specs.Jobs.{IsCourse};
    ghost use Rattle.hog_jobs.specs.CourseLaws.{begins, goes_on};

    ghost takes = { IsInput };

    ghost on_course = { IsCourse };

    ghost reply_ok = { AllowsReply };

    ghost begins = { begins };

    ghost goes_on = { goes_on };
}

/// An input for a job, and how many numbers of its globals were replaced by null.
#[derive(Drop)]
pub struct Prepared {
    pub input: JobInput,
    pub nulled: u32,
}

/// Why a value is no globals of a job.
#[derive(Clone, Copy, Debug, PartialEq, Eq)]
pub enum InputStop {
    NotAnObject,
    /// The text has more than 65,600 bytes.
    TooLarge,
    OutOfMemory,
}

impl From<AllocError> for InputStop {
    ghost use Rattle.std.specs.Prelude.{◌≡◌};
    ghost use Rattle.hog_jobs.specs.declared.course.InputStop.TheVariants.{OutOfMemory};

    ghost from_gives = { λ _ e. e ≡ OutOfMemory };

    fn from(_want: AllocError) -> InputStop {
        InputStop::OutOfMemory
    }
}

impl HogCourse {
    /// The input of a job of a program: its source, the kept text of the globals, and where its replies come from. Numbers of
    /// the globals that aren't whole numbers of 64 bits become null. The globals are nested at most 127 deep.
    pub fn input(
        alloc: Global,
        p: &Program,
        globals: &Value,
        answers: Answers,
    ) -> Result<Prepared, InputStop>
        requires nested { depth (view globals.now) ≤ 127 }
        ensures source { IfOk result (λ r. r.input.source ≡ p.now.source) }
        ensures globals { IfOk result (λ r. r.input.globals ≡ nulled_text (view globals.now)) }
        ensures answers { IfOk result (λ r. r.input.answers ≡ answers) }
        ensures nulled { IfOk result (λ r. r.nulled ≡ count_nulled (view globals.now)) }
        ensures taken { IfOk result (λ r. IsInput r.input) }
        ensures not_an_object { (result ≡ Err InputStop.NotAnObject)
            ↔ (as_object (view globals.now) ≡ None) }
        ensures too_large { result ≡ Err InputStop.TooLarge
            → most_globals < length (nulled_text (view globals.now)) }
        ensures short { IfOk result (λ r. length r.input.globals ≤ most_globals) }
    {
        let kept = match globals_text(alloc, globals) {
            Ok(kept) => kept,
            Err(GlobalsStop::NotAnObject) => return Err(InputStop::NotAnObject),
            Err(GlobalsStop::OutOfMemory) => return Err(InputStop::OutOfMemory),
        };
        if kept.text.bytes().len() > MOST_GLOBALS {
            return Err(InputStop::TooLarge);
        }
        Ok(Prepared {
            input: JobInput {
                source: p.source().copy()?,
                globals: kept.text,
                answers,
            },
            nulled: kept.nulled,
        })
    }
}
