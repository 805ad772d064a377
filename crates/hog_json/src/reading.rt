//! Reading JSON into the cells of a heap.

ghost use Rattle.std.specs.Prelude.{◌≡◌, All, None, Some, IfOk, OnOk, OnErr, length};
ghost use Rattle.serde_json.specs.Read.{read};
ghost use Rattle.serde_json.specs.View.{items_view, members_view, view};
ghost use Rattle.hog_value.specs.declared.value.Kind.TheVariants.{JsonError};
ghost use Rattle.hog_value.specs.Values.{NamesBelow};
ghost use Rattle.hog_value.specs.Cells.{IsCovered};
ghost use Rattle.hog_value.specs.Operations.{Gives, Spends, Throws};
ghost use Rattle.hog_json.specs.Reading.{Grows, json_cells, read_cells, read_items, read_members};

use hog_value::{Cell, Heap, HogText, Items, Meter, Pairs, Stop, Value};
use indexmap::IndexMap;
use serde_json::{Map, Value as Json};
use std::alloc::Global;
use std::convert::AsStr;

/// Why a text was not read into cells. Heap and meter are then as before.
#[derive(Clone, Copy, Debug, PartialEq, Eq)]
pub enum JsonStop {
    /// The text isn't JSON, or nests deeper than 127.
    BadJson,
    /// The cells don't fit.
    UnitsSpent,
    OutOfMemory,
}

/// Reads a text of JSON into new cells, inner ones before outer ones, and charges them.
#[tactic(auto, unfolding(crate::specs::Reading::json_cells))]
pub fn json_read(
    alloc: Global,
    heap: &mut Heap,
    text: &HogText,
    m: &mut Meter,
) -> Result<Value, JsonStop>
    requires { IsCovered heap.old m.old.units }
    ensures ok { IfOk result
        (λ v. json_cells text.now heap.old m.old.units ≡ Gives v heap.new m.new.units) }
    ensures turns_and_depth { OnOk result (m.new ≡ record m.old { units = m.new.units }) }
    ensures names { IfOk result (NamesBelow (length heap.new)) }
    ensures bad { result ≡ Err JsonStop.BadJson
        → json_cells text.now heap.old m.old.units ≡ Throws JsonError }
    ensures spent { result ≡ Err JsonStop.UnitsSpent
        → json_cells text.now heap.old m.old.units ≡ Spends }
    ensures err { OnErr result (heap.new ≡ heap.old) }
    ensures err_meter { OnErr result (m.new ≡ m.old) }
    ensures covered { IsCovered heap.new m.new.units }
{
    let data = parsed(alloc, text)?;
    let count = heap.len();
    let mut paid = *m;
    match place_value(alloc, heap, &data, &mut paid) {
        Ok(v) => {
            *m = paid;
            Ok(v)
        }
        Err(stop) => {
            heap.truncate(count);
            match stop {
                Stop::UnitsSpent => Err(JsonStop::UnitsSpent),
                Stop::OutOfMemory => Err(JsonStop::OutOfMemory),
            }
        }
    }
}

/// The value of a text of JSON.
fn parsed(alloc: Global, text: &HogText) -> Result<Json, JsonStop>
    ensures ok { IfOk result (λ d. read text.now ≡ Some (view d)) }
    ensures bad { result ≡ Err JsonStop.BadJson → read text.now ≡ None }
    ensures not_spent { result ≡ Err JsonStop.UnitsSpent → ⊥ }
{
    match Json::from_str(alloc, text.as_str()) {
        Ok(data) => Ok(data),
        Err(e) if e.is_memory() => Err(JsonStop::OutOfMemory),
        Err(_) => Err(JsonStop::BadJson),
    }
}

/// Makes the cells of a value. After a refusal cells may have been added.
#[cycle(place)]
fn place_value(alloc: Global, heap: &mut Heap, json: &Json, m: &mut Meter) -> Result<Value, Stop>
    requires { IsCovered heap.old m.old.units }
    ensures ok { IfOk result
        (λ v. read_cells (view json.now) heap.old m.old.units ≡ Gives v heap.new m.new.units) }
    ensures turns_and_depth { OnOk result (m.new ≡ record m.old { units = m.new.units }) }
    ensures names { IfOk result (NamesBelow (length heap.new)) }
    ensures spent { result ≡ Err Stop.UnitsSpent
        → read_cells (view json.now) heap.old m.old.units ≡ Spends }
    ensures grows { Grows heap.old heap.new }
    ensures covered { IsCovered heap.new m.new.units }
{
    match json {
        Json::Null => Ok(Value::Null),
        Json::Bool(b) => Ok(Value::Bool(*b)),
        Json::Number(n) => match n.as_i64() {
            Some(whole) => Ok(Value::Int(whole)),
            None => Ok(Value::Null),
        },
        Json::String(text) => {
            let text = HogText::from_string(text.clone()?);
            heap.make(Cell::Text(text), m)
        }
        Json::Array(items) => {
            let values = place_items(alloc, heap, items, m)?;
            heap.make(Cell::Array(values), m)
        }
        Json::Object(members) => {
            let pairs = place_members(alloc, heap, members, m)?;
            heap.make(Cell::Dict(pairs), m)
        }
    }
}

/// Makes the cells of the items of an array.
#[cycle(place)]
fn place_items(
    alloc: Global,
    heap: &mut Heap,
    items: &Vec<Json>,
    m: &mut Meter,
) -> Result<Items, Stop>
    requires { IsCovered heap.old m.old.units }
    ensures ok { IfOk result
        (λ vs. read_items (items_view items.now.items) heap.old m.old.units
        ≡ Gives vs heap.new m.new.units) }
    ensures turns_and_depth { OnOk result (m.new ≡ record m.old { units = m.new.units }) }
    ensures names { IfOk result (All (NamesBelow (length heap.new))) }
    ensures spent { result ≡ Err Stop.UnitsSpent
        → read_items (items_view items.now.items) heap.old m.old.units ≡ Spends }
    ensures grows { Grows heap.old heap.new }
    ensures covered { IsCovered heap.new m.new.units }
{
    let mut values = Vec::new(alloc);
    for item in items {
        values.push(place_value(alloc, heap, item, m)?)?;
    }
    Ok(Items::new(values))
}

/// Makes the cells of the members of an object.
#[cycle(place)]
fn place_members(
    alloc: Global,
    heap: &mut Heap,
    members: &Map<String, Json>,
    m: &mut Meter,
) -> Result<Pairs, Stop>
    requires { IsCovered heap.old m.old.units }
    ensures ok { IfOk result
        (λ ps. read_members (members_view members.now.entries) heap.old m.old.units
        ≡ Gives ps heap.new m.new.units) }
    ensures turns_and_depth { OnOk result (m.new ≡ record m.old { units = m.new.units }) }
    ensures names { IfOk result (All (λ p. NamesBelow (length heap.new) p.1)) }
    ensures spent { result ≡ Err Stop.UnitsSpent
        → read_members (members_view members.now.entries) heap.old m.old.units ≡ Spends }
    ensures grows { Grows heap.old heap.new }
    ensures covered { IsCovered heap.new m.new.units }
{
    let mut pairs = IndexMap::new(alloc);
    for (key, member) in members.iter() {
        let value = place_value(alloc, heap, member, m)?;
        let name = HogText::from_string(key.clone()?);
        drop(pairs.insert(name, value)?);
    }
    Ok(Pairs::new(pairs))
}
