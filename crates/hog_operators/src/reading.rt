//! What a value has under a key.

ghost use Rattle.std.specs.Prelude.{◌≡◌, ◌<◌, length, IfOk, IsSome};
ghost use Rattle.hog_value.specs.Values.{NamesBelow};
ghost use Rattle.hog_value.specs.Operations.{item_of, key_of};
ghost use Rattle.hog_meaning.specs.Operators.{accessed};

use crate::inside::text_named;
use hog_value::{Cell, Heap, HogText, Kind, Value};

/// The item of a cell at an index from 1; a cell that is no array has none. Takes no memory.
#[tactic(auto, unfolding(hog_value::specs::Operations::item_of))]
fn read_item(heap: &Heap, cell: u32, index: i64) -> Result<Value, Kind>
    requires { cell < length heap.now }
    ensures value { result ≡ item_of heap.now cell index }
    ensures names { IfOk result (NamesBelow (length heap.now)) }
{
    match heap.get(cell) {
        Cell::Array(_) => heap.item(cell, index),
        _ => Err(Kind::TypeError),
    }
}

/// The value of a cell at a key, which is null where it isn't there; a cell that is no dictionary has none. Takes no memory.
#[tactic(auto, unfolding(hog_value::specs::Operations::key_of))]
pub fn read_key(heap: &Heap, cell: u32, key: &HogText) -> Result<Value, Kind>
    requires { cell < length heap.now }
    ensures value { result ≡ key_of heap.now cell key.now }
    ensures names { IfOk result (NamesBelow (length heap.now)) }
{
    match heap.get(cell) {
        Cell::Dict(pairs) => Ok(pairs.map().get(key).copied().unwrap_or(Value::Null)),
        _ => Err(Kind::TypeError),
    }
}

/// What a base has under a key: an array under a whole number, a dictionary under a text. Takes no memory.
#[tactic(auto, unfolding(hog_meaning::specs::Operators::accessed))]
pub fn access(heap: &Heap, base: Value, key: Value) -> Result<Value, Kind>
    requires base { NamesBelow (length heap.now) base }
    requires key { NamesBelow (length heap.now) key }
    ensures value { result ≡ accessed heap.now base key }
    ensures names { IfOk result (NamesBelow (length heap.now)) }
{
    match (base, key) {
        (Value::Ref(n), Value::Int(index)) => read_item(heap, n, index),
        (Value::Ref(n), Value::Ref(_)) => match text_named(heap, key) {
            Some(text) => read_key(heap, n, text),
            None => Err(Kind::TypeError),
        },
        _ => Err(Kind::TypeError),
    }
}
