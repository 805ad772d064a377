//! Reading plans.

ghost use Rattle.std.specs.Prelude.{◌≡◌, ◌≢◌, IfErr, IfOk, sum_by};
ghost use Rattle.std.specs.List.{All};
ghost use Rattle.event_plans.specs.Drafts.{datas_of, draft_of, functions_of};
ghost use Rattle.hog_json.specs.Nulled.{count_nulled};
ghost use Rattle.event_reader.specs.Plans.{IsNoPlan, IsPlan, IsTaken, NoPlanOf, PlanOf, inputs_nulled, nulled_in};

use crate::gather::gather_all;
use crate::plan::{BrokenRuns, Plan, PlanJobs};
use crate::stop::{Counted, Measured, PlanStop};
use event_destinations::destinations;
use event_plans::{Draft, Event, Function};
use std::alloc::{AllocError, Global};

/// How many numbers become null in events.
fn nulled_in_events(events: &[Event]) -> Result<u32, AllocError>
    ensures { IfOk result (λ n. n ≡ sum_by count_nulled (datas_of events.now)) }
{
    let mut count: u32 = 0;
    for event in events {
        count = count.checked_add(event.nulled).ok_or(AllocError)?;
    }
    Ok(count)
}

/// How many numbers become null in the inputs of functions.
fn nulled_in_functions(functions: &[Function]) -> Result<u32, AllocError>
    ensures { IfOk result (λ n. n ≡ sum_by inputs_nulled (functions_of functions.now)) }
{
    let mut count: u32 = 0;
    for function in functions {
        count = count.checked_add(function.nulled).ok_or(AllocError)?;
    }
    Ok(count)
}

/// How many numbers become null in a draft. More than a `u32` counts is want of memory.
fn nulled_in(draft: &Draft) -> Result<u32, AllocError>
    ensures { IfOk result (λ n. n ≡ nulled_in (draft_of draft.now)) }
{
    let in_events = nulled_in_events(draft.events.as_slice())?;
    let in_functions = nulled_in_functions(draft.functions.as_slice())?;
    in_events.checked_add(in_functions).ok_or(AllocError)
}

/// The plan that a draft makes, or why it makes none: its first function that isn't ready, or else its jobs, where they are
/// too many, or else where their inputs are too large. Each comes exactly where its cause is (`plan_or_none`, `one_refusal`).
pub fn plan_of(alloc: Global, draft: Draft) -> Result<Plan, PlanStop>
    ensures plan { IfOk result (λ plan. PlanOf (draft_of draft) plan) }
    ensures inputs { IfOk result (λ plan. All IsTaken plan.jobs) }
    ensures stop { IfErr result (λ stop. stop ≢ PlanStop.OutOfMemory → NoPlanOf (draft_of draft) stop) }
{
    let nulled = nulled_in(&draft)?;
    let events = draft.events;
    let destinations = destinations(alloc, draft.functions)?;
    let gathered = gather_all(alloc, events.as_slice(), destinations.as_slice())?;
    if gathered.places.is_none() {
        return Err(PlanStop::TooMany {
            what: Counted::Jobs,
        });
    }
    if gathered.room.is_none() {
        return Err(PlanStop::TooLarge {
            what: Measured::Jobs,
        });
    }
    Ok(Plan {
        jobs: PlanJobs::new(gathered.jobs),
        broken: BrokenRuns::new(gathered.broken),
        events: events.len() as u32,
        functions: destinations.len() as u32,
        nulled,
    })
}

/// Reads a plan, a JSON text. The refusal is the first that comes: that of the text as a draft, and then that of the draft.
pub fn read_plan(alloc: Global, text: &[u8]) -> Result<Plan, PlanStop>
    ensures plan { IfOk result (IsPlan text.now) }
    ensures inputs { IfOk result (λ plan. All IsTaken plan.jobs) }
    ensures stop { IfErr result (λ stop. stop ≢ PlanStop.OutOfMemory → IsNoPlan text.now stop) }
{
    plan_of(alloc, Draft::read(alloc, text)?)
}
