//! Members of JSON objects.

ghost use Rattle.std.specs.Prelude.{◌≡◌, ◌-◌, ◌<◌, IfOk, IfSome, option_map};
ghost use Rattle.serde_json.specs.Data.{depth};
ghost use Rattle.serde_json.specs.Find.{as_array, get};
ghost use Rattle.serde_json.specs.View.{view};
ghost use Rattle.event_plans.specs.Members.{AreWithin, array_at, list_of, text_at, views};

use hog_value::HogText;
use serde_json::Value;
use std::alloc::{AllocError, Global};

/// A copy of a text.
pub(crate) fn owned(alloc: Global, text: &str) -> Result<HogText, AllocError>
    ensures { IfOk result (λ t. t ≡ text.now) }
{
    Ok(HogText::from_string(String::from_str(alloc, text)?))
}

/// The member of a name, which nests less deep than the value.
pub(crate) fn member<'v>(value: &'v Value, name: &str) -> Option<&'v Value>
    ensures value { option_map (λ v. view v.now) result ≡ get name.now (view value.now) }
    ensures nested { IfSome result (λ v. depth (view v.now) < depth (view value.now)) }
{
    value.get(name)
}

/// The text of a member, where it is one.
pub(crate) fn text_at<'v>(value: &'v Value, name: &str) -> Option<&'v str>
    ensures { option_map (λ s. s.now) result ≡ text_at name.now (view value.now) }
{
    match value.get(name) {
        Some(member) => member.as_str(),
        None => None,
    }
}

/// The elements of an array, which nest less deep than the array.
pub(crate) fn elements(value: &Value) -> Option<&[Value]>
    ensures elements { option_map (λ vs. views vs.now) result
        ≡ option_map list_of (as_array (view value.now)) }
    ensures nested { IfSome result (λ vs. AreWithin (depth (view value.now)) vs.now) }
{
    match value.as_array() {
        Some(list) => Some(list.as_slice()),
        None => None,
    }
}

/// The elements of a member that is an array.
pub(crate) fn array_at<'v>(value: &'v Value, name: &str) -> Option<&'v [Value]>
    ensures elements { option_map (λ vs. views vs.now) result ≡ array_at name.now (view value.now) }
    ensures nested { IfSome result (λ vs. AreWithin (depth (view value.now) - 1) vs.now) }
{
    match member(value, name) {
        Some(array) => elements(array),
        None => None,
    }
}
