//! Which sources are built.

ghost use Rattle.std.specs.Prelude.{IfNone, IfOk, IfSome};
ghost use Rattle.hog_ops.specs.Plain.{Ops};
ghost use Rattle.hog_program.specs.Build.{IsUnbuilt};
ghost use Rattle.hog_program.specs.Program.{HasCode};
ghost use Rattle.script_reader.specs.Script.{BuildFails};
ghost use Rattle.script_reader.specs.Steps.{Builds};

use crate::step::Step;
use hog_program::{BuildStop, Program};
use hog_value::HogText;
use std::alloc::{AllocError, Global};

/// Why a source isn't built, if it isn't.
fn source_stop(alloc: Global, source: &HogText) -> Result<Option<BuildStop>, AllocError>
    ensures built { IfOk result (λ o. IfNone o ((code : Ops) × HasCode source.now code)) }
    ensures unbuilt { IfOk result (λ o. IfSome o (IsUnbuilt source.now)) }
{
    match Program::build(alloc, source.bytes()) {
        Ok(_program) => Ok(None),
        Err(stop) => match stop {
            BuildStop::OutOfMemory => Err(AllocError),
            _ => Ok(Some(stop)),
        },
    }
}

/// Why the source of a step isn't built, if it has one that isn't.
pub(crate) fn step_stop(alloc: Global, step: &Step) -> Result<Option<BuildStop>, AllocError>
    ensures builds { IfOk result (λ o. IfNone o (Builds step.now)) }
    ensures fails { IfOk result (λ o. IfSome o (BuildFails step.now)) }
{
    match step {
        Step::Enqueue { input, .. } => source_stop(alloc, &input.source),
        _ => Ok(None),
    }
}
