//! The events of the made plan.

ghost use Rattle.std.specs.Prelude.{◌≡◌, ◌≤◌, ◌<◌, IfOk, Some, string_bytes};
ghost use Rattle.serde_json.specs.View.{view};
ghost use Rattle.event_plans.specs.Drafts.{data_of, datas_of};
ghost use Rattle.event_plans.specs.Event.{uuid_of};
ghost use Rattle.made_plans.specs.Made.{event_data, made_event, made_events, made_uuid};

use event_plans::Event;
use hog_json::nulled_text;
use hog_value::HogText;
use serde_json::{Value, json};
use std::alloc::{AllocError, Global};
use uuid::Uuid;

/// The uuid of a number as 128 bits.
fn made_uuid(alloc: Global, number: u32) -> Result<String, AllocError>
    ensures { IfOk result (λ s. string_bytes s ≡ made_uuid number) }
{
    let mut buffer = Uuid::encode_buffer();
    let text = Uuid::from_u128(number as u128)
        .hyphenated()
        .encode_lower(&mut buffer);
    String::from_str(alloc, text)
}

/// The JSON value of an event with that property `n`.
fn event_value(alloc: Global, uuid: &str, n: u32) -> Result<Value, AllocError>
    ensures { IfOk result (λ v. view v ≡ event_data uuid.now n) }
{
    json!(in alloc; {"event": "made", "properties": {"n": n}, "uuid": uuid})
}

/// Event `i` of the plan of `n`.
fn made_event(alloc: Global, n: u32, i: u32) -> Result<Event, AllocError>
    requires plan { n ≤ 3000 }
    requires event { i < 4000 }
    ensures { IfOk result (λ e. data_of e ≡ made_event n i) }
{
    let uuid = made_uuid(alloc, i)?;
    let value = event_value(alloc, uuid.as_str(), (n + i) % 100)?;
    let kept = nulled_text(alloc, &value)?;
    Ok(Event {
        value,
        uuid: HogText::from_string(uuid),
        name: HogText::from_string(String::from_str(alloc, "made")?),
        size: kept.text.bytes().len(),
        nulled: kept.nulled,
    })
}

/// The events of the plan of `n`.
pub(crate) fn made_events(alloc: Global, n: u32) -> Result<Vec<Event>, AllocError>
    requires { n ≤ 3000 }
    ensures { IfOk result (λ es. datas_of es.items ≡ made_events n) }
{
    let mut events = Vec::new(alloc);
    for i in 0..n + 1000 {
        events.push(made_event(alloc, n, i)?)?;
    }
    Ok(events)
}
