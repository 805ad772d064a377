//! Meetings of events with destinations.

ghost use Rattle.std.specs.Prelude.{◌≡◌, ◌≤◌, IfOk};
ghost use Rattle.event_destinations.specs.Destinations.{most_inputs};
ghost use Rattle.event_plans.specs.Drafts.{data_of, function_of};
ghost use Rattle.hog_jobs.specs.Inputs.{IsGlobals};
ghost use Rattle.event_reader.specs.Gathering.{MakesInput, SaysIfAny};
ghost use Rattle.event_reader.specs.Meetings.{Meets, globals_for, is_taken};

use cyclotron_jobs::{Answers, JobInput};
use event_destinations::Destination;
use event_filter::{FilterStop, Verdict, passes};
use event_patterns::Pattern;
use event_plans::{Event, Function, globals_size};
use hog_jobs::laws::kept_globals;
use hog_json::globals_of;
use hog_program::Program;
use hog_value::HogText;
use std::alloc::{AllocError, Global};

/// What comes of an event that meets a destination.
#[derive(Drop)]
pub(crate) enum Meeting {
    /// Nothing: the pattern doesn't match, or the filter says no.
    Skipped,
    /// A job with this input.
    Job(JobInput),
    /// The filter broke. This is the line of its end.
    Broken(HogText),
}

/// Whether a name is taken.
fn is_taken(alloc: Global, pattern: &Option<Pattern>, name: &HogText) -> Result<bool, AllocError>
    ensures { IfOk result (λ taken. taken ≡ is_taken pattern.now name.now) }
{
    match pattern {
        Some(pattern) => pattern.is_in(alloc, name),
        None => Ok(true),
    }
}

/// The globals of a function for an event. They are short enough for a job, as the event is and the inputs are.
#[tactic(auto, unfolding(hog_json::specs::Nulled::globals_data))]
fn globals_for(alloc: Global, event: &Event, function: &Function) -> Result<HogText, AllocError>
    requires { function.now.size ≤ most_inputs }
    ensures text { IfOk result
        (λ text. text ≡ globals_for (data_of event.now) (function_of function.now)) }
    ensures globals { IfOk result IsGlobals }
{
    globals_size();
    kept_globals();
    Ok(globals_of(alloc, &event.value, &function.inputs)?.text)
}

/// The verdict on globals.
fn verdict(
    alloc: Global,
    filter: &Option<Program>,
    globals: &HogText,
) -> Result<Verdict, AllocError>
    requires { IsGlobals globals.now }
    ensures { IfOk result (SaysIfAny filter.now globals.now) }
{
    kept_globals();
    let Some(filter) = filter else {
        return Ok(Verdict::Yes);
    };
    match passes(alloc, filter, globals) {
        Ok(verdict) => Ok(verdict),
        Err(FilterStop::OutOfMemory) => Err(AllocError),
        Err(FilterStop::NotAnObject) => unreachable!(),
    }
}

/// What comes of an event that meets a destination. The filter is asked only where the pattern matches.
pub(crate) fn meet(
    alloc: Global,
    event: &Event,
    destination: &Destination,
) -> Result<Meeting, AllocError>
    ensures meets { IfOk result (Meets (data_of event.now) (function_of destination.now.function)) }
    ensures input { IfOk result MakesInput }
{
    if !is_taken(alloc, &destination.pattern, &event.name)? {
        return Ok(Meeting::Skipped);
    }
    let globals = globals_for(alloc, event, &destination.function)?;
    match verdict(alloc, &destination.filter, &globals)? {
        Verdict::Yes => Ok(Meeting::Job(JobInput {
            source: destination.program.source().copy()?,
            globals,
            answers: Answers::Listed(destination.function.answers.copy()?),
        })),
        Verdict::No => Ok(Meeting::Skipped),
        Verdict::Broken(line) => Ok(Meeting::Broken(line)),
    }
}
