//! Events of plans.

ghost use Rattle.std.specs.Prelude.{◌≡◌, ◌≢◌, ◌≤◌, IfErr, IfOk, None, Some};
ghost use Rattle.serde_json.specs.Data.{depth};
ghost use Rattle.serde_json.specs.View.{view};
ghost use Rattle.hog_json.specs.Nulled.{count_nulled};
ghost use Rattle.event_plans.specs.Event.{event_stop, most_event, name_in, size_of, uuid_in, uuid_of};

use crate::member::{owned, text_at};
use crate::stop::DraftStop;
use hog_json::nulled_text;
use hog_value::{HogText, TextStop};
use serde_json::Value;
use std::alloc::{AllocError, Global};
use uuid::Uuid;

/// The most bytes of an event.
const MOST_EVENT: usize = 32_768;

/// An event, with what its value says: its uuid with hyphens and in lower case, its name, how many bytes it has as it
/// is kept, and how many of its numbers become null there.
#[derive(Drop)]
pub struct Event {
    pub value: Value,
    pub uuid: HogText,
    pub name: HogText,
    pub size: usize,
    pub nulled: u32,
    ghost has_uuid: { uuid_in (view value) ≡ Some uuid },
    ghost has_name: { name ≡ name_in (view value) },
    ghost has_size: { size ≡ size_of (view value) },
    ghost has_nulled: { nulled ≡ count_nulled (view value) },
    ghost is_short: { size ≤ most_event },
    ghost is_nested: { depth (view value) ≤ 126 },
}

/// The hyphenated form of a text that is a uuid.
fn uuid_of(alloc: Global, text: &str) -> Result<Option<HogText>, AllocError>
    ensures { IfOk result (λ o. o ≡ uuid_of text.now) }
{
    let Ok(id) = Uuid::parse_str(text) else {
        return Ok(None);
    };
    let mut buffer = Uuid::encode_buffer();
    let text = id.hyphenated().encode_lower(&mut buffer);
    Ok(Some(owned(alloc, text)?))
}

/// The event's member `event`, or the empty text.
fn name_of(alloc: Global, value: &Value) -> Result<HogText, AllocError>
    ensures { IfOk result (λ t. t ≡ name_in (view value.now)) }
{
    match text_at(value, "event") {
        Some(name) => owned(alloc, name),
        None => owned(alloc, ""),
    }
}

impl Event {
    ghost use Rattle.event_plans.specs.Drafts.{data_of};

    /// The event that a value is, which stands at this place among the events, or why it is none.
    pub(crate) fn read(alloc: Global, n: u32, value: &Value) -> Result<Event, DraftStop>
        requires { depth (view value.now) ≤ 126 }
        ensures event { IfOk result (λ e. data_of e ≡ view value.now) }
        ensures is { IfOk result (λ e. event_stop n (view value.now) ≡ None) }
        ensures stop { IfErr result
            (λ s. s ≢ DraftStop.OutOfMemory → event_stop n (view value.now) ≡ Some s) }
    {
        let Some(text) = text_at(value, "uuid") else {
            return Err(DraftStop::Missing { event: n });
        };
        let Some(uuid) = uuid_of(alloc, text)? else {
            return Err(DraftStop::BadUuid { event: n });
        };
        Event::kept(alloc, n, value, uuid)
    }

    /// The event with that uuid, where it is not too large.
    fn kept(alloc: Global, n: u32, value: &Value, uuid: HogText) -> Result<Event, DraftStop>
        requires nested { depth (view value.now) ≤ 126 }
        requires uuid { uuid_in (view value.now) ≡ Some uuid }
        ensures event { IfOk result (λ e. data_of e ≡ view value.now) }
        ensures is { IfOk result (λ e. event_stop n (view value.now) ≡ None) }
        ensures stop { IfErr result
            (λ s. s ≢ DraftStop.OutOfMemory → event_stop n (view value.now) ≡ Some s) }
    {
        let kept = nulled_text(alloc, value)?;
        let size = kept.text.bytes().len();
        if size > MOST_EVENT {
            return Err(DraftStop::TooLarge { event: n });
        }
        Ok(Event {
            value: value.clone()?,
            uuid,
            name: name_of(alloc, value)?,
            size,
            nulled: kept.nulled,
        })
    }
}
