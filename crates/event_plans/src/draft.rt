//! Reading the draft of a plan.

ghost use Rattle.std.specs.Prelude.{◌≡◌, ◌≢◌, ◌≤◌, IfErr, IfOk, None, Ok, Err, Some, length, option_map, vec_len};
ghost use Rattle.serde_json.specs.Data.{depth};
ghost use Rattle.serde_json.specs.View.{view};
ghost use Rattle.event_plans.specs.Draft.{IsDraft, IsNoDraft, checked, draft_in, most_events, most_functions};
ghost use Rattle.event_plans.specs.Event.{events_stop};
ghost use Rattle.event_plans.specs.Function.{function_in};
ghost use Rattle.event_plans.specs.Members.{AreWithin, read_all, views};

use crate::event::Event;
use crate::function::Function;
use crate::member::array_at;
use crate::stop::DraftStop;
use serde_json::Value;
use std::alloc::{AllocError, Global};

const MOST_EVENTS: usize = 4_096;

const MOST_FUNCTIONS: usize = 64;

/// The events and the functions of a plan, whose programs are still to be built.
#[derive(Drop)]
pub struct Draft {
    pub events: Vec<Event>,
    pub functions: Vec<Function>,
    ghost few_events: { vec_len events ≤ most_events },
    ghost few_functions: { vec_len functions ≤ most_functions },
}

impl Draft {
    ghost use Rattle.event_plans.specs.Drafts.{datas_of, draft_of, functions_of};

    /// The functions that values are, where each is one.
    fn functions(alloc: Global, values: &[Value]) -> Result<Option<Vec<Function>>, AllocError>
        requires { AreWithin 126 values.now }
        ensures { IfOk result
            (λ o. option_map (λ fs. functions_of fs.items) o ≡ read_all function_in (views values.now)) }
    {
        let mut functions = Vec::new(alloc);
        for value in values {
            let Some(function) = Function::read(alloc, value)? else {
                return Ok(None);
            };
            functions.push(function)?;
        }
        Ok(Some(functions))
    }

    /// The events that values are, or the first refusal.
    fn events(alloc: Global, values: &[Value]) -> Result<Vec<Event>, DraftStop>
        requires shallow { AreWithin 127 values.now }
        requires few { length values.now ≤ most_events }
        ensures events { IfOk result (λ es. datas_of es.items ≡ views values.now) }
        ensures are { IfOk result (λ es. events_stop 0 (views values.now) ≡ None) }
        ensures stop { IfErr result
            (λ s. s ≢ DraftStop.OutOfMemory → events_stop 0 (views values.now) ≡ Some s) }
    {
        let mut events = Vec::new(alloc);
        for (n, value) in values.iter().enumerate() {
            events.push(Event::read(alloc, n as u32, value)?)?;
        }
        Ok(events)
    }

    /// The draft of so many events and functions, or the first refusal of an event.
    fn checked(
        alloc: Global,
        events: &[Value],
        functions: Vec<Function>,
    ) -> Result<Draft, DraftStop>
        requires { AreWithin 127 events.now }
        ensures draft { IfOk result
            (λ d. checked (record { events = views events.now; functions = functions_of functions.items })
            ≡ Ok (draft_of d)) }
        ensures stop { IfErr result (λ s. s ≢ DraftStop.OutOfMemory
            → checked (record { events = views events.now; functions = functions_of functions.items }) ≡ Err s) }
    {
        if events.len() > MOST_EVENTS {
            return Err(DraftStop::TooManyEvents);
        }
        if functions.len() > MOST_FUNCTIONS {
            return Err(DraftStop::TooManyFunctions);
        }
        Ok(Draft {
            events: Draft::events(alloc, events)?,
            functions,
        })
    }

    /// The draft that a JSON value is, or its first refusal.
    fn of(alloc: Global, value: &Value) -> Result<Draft, DraftStop>
        requires { depth (view value.now) ≤ 127 }
        ensures draft { IfOk result (λ d. draft_in (view value.now) ≡ Ok (draft_of d)) }
        ensures stop { IfErr result
            (λ s. s ≢ DraftStop.OutOfMemory → draft_in (view value.now) ≡ Err s) }
    {
        let Some(events) = array_at(value, "events") else {
            return Err(DraftStop::NotAPlan);
        };
        let Some(functions) = array_at(value, "functions") else {
            return Err(DraftStop::NotAPlan);
        };
        let Some(functions) = Draft::functions(alloc, functions)? else {
            return Err(DraftStop::NotAPlan);
        };
        Draft::checked(alloc, events, functions)
    }

    /// The draft of a plan, as a JSON text. The refusal is the first that comes: no JSON, another shape, too many events,
    /// too many functions, and then that of the first event that is none.
    pub fn read(alloc: Global, text: &[u8]) -> Result<Draft, DraftStop>
        ensures draft { IfOk result (λ d. IsDraft text.now (draft_of d)) }
        ensures stop { IfErr result (λ s. s ≢ DraftStop.OutOfMemory → IsNoDraft text.now s) }
    {
        match Value::from_slice(alloc, text) {
            Ok(value) => Draft::of(alloc, &value),
            Err(e) if e.is_memory() => Err(DraftStop::OutOfMemory),
            Err(_) => Err(DraftStop::NotJson),
        }
    }
}
