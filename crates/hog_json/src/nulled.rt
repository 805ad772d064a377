//! JSON texts without the numbers that aren't whole numbers of 64 bits.

ghost use Rattle.std.specs.Prelude.{◌≡◌, ◌+◌, IfOk};
ghost use Rattle.serde_json.specs.View.{view, items_view, members_view};
ghost use Rattle.hog_json.specs.Nulled.{nulled, nulled_items, nulled_members, count_nulled, count_nulled_items, count_nulled_members};

use serde_json::{Map, Value};
use std::alloc::{AllocError, Global};

/// A copy with null for each number that isn't whole.
#[cycle(copy)]
pub(crate) fn copy_nulled(alloc: Global, value: &Value) -> Result<Value, AllocError>
    ensures { IfOk result (λ v. view v ≡ nulled (view value.now)) }
{
    match value {
        Value::Null => Ok(Value::Null),
        Value::Bool(b) => Ok(Value::Bool(*b)),
        Value::Number(n) => match n.as_i64() {
            Some(_) => Ok(Value::Number(*n)),
            None => Ok(Value::Null),
        },
        Value::String(text) => Ok(Value::String(text.clone()?)),
        Value::Array(items) => Ok(Value::Array(copy_items(alloc, items)?)),
        Value::Object(members) => Ok(Value::Object(copy_members(alloc, members)?)),
    }
}

#[cycle(copy)]
fn copy_items(alloc: Global, items: &Vec<Value>) -> Result<Vec<Value>, AllocError>
    ensures { IfOk result (λ v. items_view v.items ≡ nulled_items (items_view items.now.items)) }
{
    let mut copies = Vec::new(alloc);
    for item in items {
        copies.push(copy_nulled(alloc, item)?)?;
    }
    Ok(copies)
}

#[cycle(copy)]
fn copy_members(
    alloc: Global,
    members: &Map<String, Value>,
) -> Result<Map<String, Value>, AllocError>
    ensures { IfOk result (λ m. members_view m.entries ≡ nulled_members (members_view members.now.entries)) }
{
    let mut copies = Map::new(alloc);
    for (key, member) in members.iter() {
        let name = key.clone()?;
        drop(copies.insert(name, copy_nulled(alloc, member)?)?);
    }
    Ok(copies)
}

/// How many numbers that replaces, added to a count. More than a `u32` counts is want of memory.
#[cycle(count)]
pub(crate) fn add_nulled(count: u32, value: &Value) -> Result<u32, AllocError>
    ensures { IfOk result (λ n. n ≡ count + count_nulled (view value.now)) }
{
    match value {
        Value::Number(n) => match n.as_i64() {
            Some(_) => Ok(count),
            None => count.checked_add(1).ok_or(AllocError),
        },
        Value::Array(items) => add_nulled_items(count, items),
        Value::Object(members) => add_nulled_members(count, members),
        _ => Ok(count),
    }
}

#[cycle(count)]
fn add_nulled_items(count: u32, items: &Vec<Value>) -> Result<u32, AllocError>
    ensures { IfOk result (λ n. n ≡ count + count_nulled_items (items_view items.now.items)) }
{
    let mut counted = count;
    for item in items {
        counted = add_nulled(counted, item)?;
    }
    Ok(counted)
}

#[cycle(count)]
fn add_nulled_members(count: u32, members: &Map<String, Value>) -> Result<u32, AllocError>
    ensures { IfOk result (λ n. n ≡ count + count_nulled_members (members_view members.now.entries)) }
{
    let mut counted = count;
    for (_, member) in members.iter() {
        counted = add_nulled(counted, member)?;
    }
    Ok(counted)
}
