//! Functions of plans that are ready to run.

ghost use Rattle.std.specs.Prelude.{◌≡◌, ◌≢◌, ◌≤◌, IfErr, IfOk, option_map};
ghost use Rattle.hog_program.specs.Program.{Built};
ghost use Rattle.event_patterns.specs.Patterns.{IsPattern};
ghost use Rattle.event_plans.specs.Drafts.{function_of};
ghost use Rattle.event_destinations.specs.Destinations.{IfAny, IsAny, IsBuiltText, IsDestinationStop, IsReady, IsRefusedAt, IsUnbuiltAt, most_inputs};

use crate::stop::DestinationStop;
use event_patterns::{Pattern, PatternStop};
use event_plans::Function;
use hog_program::{BuildStop, Program};
use hog_value::HogText;
use std::alloc::Global;

/// The most bytes of a function's inputs.
const MOST_INPUTS: usize = 32_768;

/// A function of a plan whose programs are built and whose pattern is read.
#[derive(Drop)]
pub struct Destination {
    pub function: Function,
    pub program: Program,
    pub filter: Option<Program>,
    pub pattern: Option<Pattern>,
    ghost has_source: { program.source ≡ function.source },
    ghost has_filter: { option_map (λ (p : Built). p.source) filter ≡ function.filter },
    ghost has_pattern: { pattern ≡ function.pattern },
    ghost is_short: { function.size ≤ most_inputs },
}

/// The program of a text of the function at that place.
fn built(alloc: Global, n: u32, text: &HogText) -> Result<Program, DestinationStop>
    ensures source { IfOk result (λ p. p.source ≡ text.now) }
    ensures built { IfOk result (λ _. IsBuiltText text.now) }
    ensures stop { IfErr result (λ s. s ≢ DestinationStop.OutOfMemory → IsUnbuiltAt n s text.now) }
{
    match Program::build(alloc, text.bytes()) {
        Ok(program) => {
            let _code = program.code();
            Ok(program)
        }
        Err(BuildStop::OutOfMemory) => Err(DestinationStop::OutOfMemory),
        Err(stop) => Err(DestinationStop::BadFunction { function: n, stop }),
    }
}

/// The program of the filter of the function at that place, where it has one.
fn built_if_any(
    alloc: Global,
    n: u32,
    text: &Option<HogText>,
) -> Result<Option<Program>, DestinationStop>
    ensures source { IfOk result (λ o. option_map (λ (p : Built). p.source) o ≡ text.now) }
    ensures built { IfOk result (λ _. IfAny IsBuiltText text.now) }
    ensures stop { IfErr result (λ s. s ≢ DestinationStop.OutOfMemory → IsAny (IsUnbuiltAt n s) text.now) }
{
    match text {
        None => Ok(None),
        Some(text) => Ok(Some(built(alloc, n, text)?)),
    }
}

/// The pattern of the function at that place, where it has one.
fn pattern_if_any(
    alloc: Global,
    n: u32,
    text: &Option<HogText>,
) -> Result<Option<Pattern>, DestinationStop>
    ensures text { IfOk result (λ o. o ≡ text.now) }
    ensures pattern { IfOk result (λ _. IfAny IsPattern text.now) }
    ensures stop { IfErr result (λ s. s ≢ DestinationStop.OutOfMemory → IsAny (IsRefusedAt n s) text.now) }
{
    match text {
        None => Ok(None),
        Some(text) => match Pattern::read(alloc, text) {
            Ok(pattern) => Ok(Some(pattern)),
            Err(PatternStop::Refused) => Err(DestinationStop::BadPattern { function: n }),
            Err(PatternStop::OutOfMemory) => Err(DestinationStop::OutOfMemory),
        },
    }
}

impl Destination {
    /// The destination of the function that stands at this place, or why it isn't ready: its source isn't built, or its filter,
    /// or its pattern is none, or its inputs are too large.
    pub fn build(alloc: Global, n: u32, function: Function) -> Result<Destination, DestinationStop>
        ensures function { IfOk result (λ d. function_of d.function ≡ function_of function) }
        ensures ready { IfOk result (λ _. IsReady (function_of function)) }
        ensures stop { IfErr result (λ s. s ≢ DestinationStop.OutOfMemory
            → IsDestinationStop n (function_of function) s) }
    {
        let program = built(alloc, n, &function.source)?;
        let filter = built_if_any(alloc, n, &function.filter)?;
        let pattern = pattern_if_any(alloc, n, &function.pattern)?;
        if function.size > MOST_INPUTS {
            return Err(DestinationStop::TooLarge { function: n });
        }
        Ok(Destination {
            function,
            program,
            filter,
            pattern,
        })
    }
}
