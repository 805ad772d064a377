//! Upvalues as JSON.

ghost use Rattle.std.specs.Prelude.{◌≡◌, IfOk, map};
ghost use Rattle.std.specs.List.{AllByRecursion};
ghost use Rattle.serde_json.specs.View.{view};
ghost use Rattle.vm_frames.specs.Views.{upvalue_of};
ghost use Rattle.state_forms.specs.Shapes.{Gives, list, each, list_by};
ghost use Rattle.state_forms.specs.Calls.{upvalue_by, upvalue_in, upvalue_data, UpvalueFits};

use crate::forms::{Json, array_of, list_value, number, number_u32};
use crate::stop::ReadStop;
use hog_value::Value;
use std::alloc::{AllocError, Global};
use vm_frames::Upvalue;

/// An upvalue by its first number.
fn read_upvalue_by(alloc: Global, n: u32, d: &serde_json::Value) -> Result<Upvalue, ReadStop>
    ensures gives { Gives upvalue_of result (upvalue_by n (view d.now)) }
    ensures ranged { IfOk result (λ u. UpvalueFits (upvalue_of u)) }
{
    if n == 0 {
        Ok(Upvalue::Opened(number_u32(d)?))
    } else if n == 1 {
        Ok(Upvalue::Closed(Value::read(alloc, d)?))
    } else {
        Err(ReadStop::Refused)
    }
}

/// An upvalue.
pub fn read_upvalue(alloc: Global, v: &serde_json::Value) -> Result<Upvalue, ReadStop>
    ensures gives { Gives upvalue_of result (upvalue_in (view v.now)) }
    ensures ranged { IfOk result (λ u. UpvalueFits (upvalue_of u)) }
{
    match array_of(v)? {
        [k, d] => {
            let n = number_u32(k)?;
            read_upvalue_by(alloc, n, d)
        }
        _ => Err(ReadStop::Refused),
    }
}

/// The form of an upvalue.
pub fn write_upvalue(alloc: Global, upvalue: &Upvalue) -> Result<serde_json::Value, AllocError>
    ensures form { IfOk result (λ v. view v ≡ upvalue_data (upvalue_of upvalue.now)) }
    ensures ranged { IfOk result (λ _. UpvalueFits (upvalue_of upvalue.now)) }
{
    match upvalue {
        Upvalue::Opened(place) => Ok(list_value(vec![in alloc; number(0), number(*place)]?)),
        Upvalue::Closed(v) => {
            let held = v.write(alloc)?;
            Ok(list_value(vec![in alloc; number(1), held]?))
        }
    }
}

/// The upvalues of an array.
#[tactic(auto, unfolding(crate::specs::Shapes::list_by))]
pub fn read_upvalues(alloc: Global, v: &serde_json::Value) -> Result<Vec<Upvalue>, ReadStop>
    ensures gives { Gives (λ us. map upvalue_of us.items) result (list_by upvalue_in (view v.now)) }
    ensures ranged { IfOk result (λ us. AllByRecursion UpvalueFits (map upvalue_of us.items)) }
{
    match array_of(v) {
        Ok(items) => read_all_upvalues(alloc, items),
        Err(e) => Err(e),
    }
}

/// Each of the items, an upvalue.
fn read_all_upvalues(alloc: Global, items: &[serde_json::Value]) -> Result<Vec<Upvalue>, ReadStop>
    ensures gives { Gives (λ us. map upvalue_of us.items) result (each upvalue_in (map view items.now)) }
    ensures ranged { IfOk result (λ us. AllByRecursion UpvalueFits (map upvalue_of us.items)) }
{
    let mut found = Vec::new(alloc);
    for item in items {
        match read_upvalue(alloc, item) {
            Ok(u) => found.push(u)?,
            Err(e) => return Err(e),
        }
    }
    Ok(found)
}

/// The array of the forms of upvalues.
pub fn write_upvalues(alloc: Global, upvalues: &[Upvalue]) -> Result<serde_json::Value, AllocError>
    ensures form { IfOk result (λ v. view v ≡ list (map upvalue_data (map upvalue_of upvalues.now))) }
    ensures ranged { IfOk result (λ _. AllByRecursion UpvalueFits (map upvalue_of upvalues.now)) }
{
    let mut written = Vec::new(alloc);
    for upvalue in upvalues {
        written.push(write_upvalue(alloc, upvalue)?)?;
    }
    Ok(list_value(written))
}
