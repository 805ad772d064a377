//! Types with a JSON form, and arrays of them.

ghost use Rattle.std.specs.Prelude.{◌≡◌, Option, Some, IfOk, IfSome, map};
ghost use Rattle.std.specs.List.{AllByRecursion};
ghost use Rattle.serde_json.specs.Data.{Data, string};
ghost use Rattle.serde_json.specs.Find.{as_str};
ghost use Rattle.serde_json.specs.View.{view};
ghost use Rattle.state_forms.specs.Shapes.{Gives, list_in, list, each, list_by, u32_in, u64_in, number_data, maybe_in, maybe_data};

use crate::stop::ReadStop;
use hog_value::HogText;
use serde_json::{Number, Value};
use std::alloc::{AllocError, Global};

/// A type with a JSON form.
pub trait Json: Drop + Sized {
    ghost written: { Self → Data };

    ghost reads: { Data → Option Self };

    ghost fits: { Self → Type 0 };

    /// What the value is the form of.
    fn read(alloc: Global, v: &Value) -> Result<Self, ReadStop>
        ensures gives { Gives (λ x. x) result (reads (view v.now)) }
        ensures ranged { IfOk result fits };

    /// The form.
    fn write(&self, alloc: Global) -> Result<Value, AllocError>
        ensures form { IfOk result (λ v. view v ≡ written self.now) }
        ensures ranged { IfOk result (λ _. fits self.now) };
}

/// The items of an array. Takes no memory.
pub fn array_of(v: &Value) -> Result<&[Value], ReadStop>
    ensures { Gives (λ xs. map view xs.now) result (list_in (view v.now)) }
{
    match v.as_array() {
        Some(items) => Ok(items.as_slice()),
        None => Err(ReadStop::Refused),
    }
}

/// A number of 32 bits. Takes no memory.
pub fn number_u32(v: &Value) -> Result<u32, ReadStop>
    ensures { Gives (λ x. x) result (u32_in (view v.now)) }
{
    match v.as_u64() {
        Some(n) if n < 4_294_967_296 => Ok(n as u32),
        _ => Err(ReadStop::Refused),
    }
}

/// A number of 64 bits. Takes no memory.
pub fn number_u64(v: &Value) -> Result<u64, ReadStop>
    ensures { Gives (λ x. x) result (u64_in (view v.now)) }
{
    match v.as_u64() {
        Some(n) => Ok(n),
        None => Err(ReadStop::Refused),
    }
}

/// A text.
pub fn text(alloc: Global, v: &Value) -> Result<HogText, ReadStop>
    ensures { Gives (λ x. x) result (as_str (view v.now)) }
{
    match v.as_str() {
        Some(s) => Ok(HogText::from_string(String::from_str(alloc, s)?)),
        None => Err(ReadStop::Refused),
    }
}

/// A number as JSON. Takes no memory.
pub fn number(n: u32) -> Value
    ensures { view result ≡ number_data n }
{
    Value::Number(Number::from(n))
}

/// A number of 64 bits as JSON. Takes no memory.
pub fn number_wide(n: u64) -> Value
    ensures { view result ≡ number_data n }
{
    Value::Number(Number::from(n))
}

/// A text as JSON.
pub fn string(alloc: Global, s: &str) -> Result<Value, AllocError>
    ensures { IfOk result (λ v. view v ≡ string s.now) }
{
    Value::try_from_str(alloc, s)
}

/// An array. Takes no memory.
pub fn list_value(items: Vec<Value>) -> Value
    ensures { view result ≡ list (map view items.items) }
{
    Value::Array(items)
}

/// Each of the items.
pub fn read_all<T: Json>(alloc: Global, items: &[Value]) -> Result<Vec<T>, ReadStop>
    ensures gives { Gives (λ v. v.items) result (each T.reads (map view items.now)) }
    ensures ranged { IfOk result (λ v. AllByRecursion T.fits v.items) }
{
    let mut found = Vec::new(alloc);
    for item in items {
        match T::read(alloc, item) {
            Ok(x) => found.push(x)?,
            Err(e) => return Err(e),
        }
    }
    Ok(found)
}

/// The forms of the items.
pub fn write_each<T: Json>(alloc: Global, items: &[T]) -> Result<Vec<Value>, AllocError>
    ensures form { IfOk result (λ vs. map view vs.items ≡ map T.written items.now) }
    ensures ranged { IfOk result (λ _. AllByRecursion T.fits items.now) }
{
    let mut written = Vec::new(alloc);
    for item in items {
        written.push(item.write(alloc)?)?;
    }
    Ok(written)
}

/// The array of the items' forms.
pub fn write_all<T: Json>(alloc: Global, items: &[T]) -> Result<Value, AllocError>
    ensures form { IfOk result (λ v. view v ≡ list (map T.written items.now)) }
    ensures ranged { IfOk result (λ _. AllByRecursion T.fits items.now) }
{
    Ok(list_value(write_each(alloc, items)?))
}

/// Each item of an array.
#[tactic(auto, unfolding(crate::specs::Shapes::list_by))]
pub fn read_list<T: Json>(alloc: Global, v: &Value) -> Result<Vec<T>, ReadStop>
    ensures gives { Gives (λ v. v.items) result (list_by T.reads (view v.now)) }
    ensures ranged { IfOk result (λ v. AllByRecursion T.fits v.items) }
{
    match array_of(v) {
        Ok(items) => read_all(alloc, items),
        Err(e) => Err(e),
    }
}

/// Null for none.
pub fn read_maybe<T: Json>(alloc: Global, v: &Value) -> Result<Option<T>, ReadStop>
    ensures gives { Gives (λ o. o) result (maybe_in T.reads (view v.now)) }
    ensures ranged { IfOk result (λ o. IfSome o T.fits) }
{
    if v.is_null() {
        Ok(None)
    } else {
        match T::read(alloc, v) {
            Ok(x) => Ok(Some(x)),
            Err(e) => Err(e),
        }
    }
}

/// Null for none.
pub fn write_maybe<T: Json>(alloc: Global, x: &Option<T>) -> Result<Value, AllocError>
    ensures form { IfOk result (λ v. view v ≡ maybe_data T.written x.now) }
    ensures ranged { IfOk result (λ _. IfSome x.now T.fits) }
{
    match x {
        None => Ok(Value::Null),
        Some(x) => x.write(alloc),
    }
}
