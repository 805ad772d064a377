//! Whether a value is in another.

ghost use Rattle.std.specs.Prelude.{◌≡◌, length, All, Some, option_map};
ghost use Rattle.std.specs.Option.{option_copied};
ghost use Rattle.std.specs.List.{list_any};
ghost use Rattle.hog_value.specs.Values.{NamesBelow};
ghost use Rattle.hog_value.specs.Cells.{CellNamesBelow};
ghost use Rattle.hog_value.specs.Operations.{same_of};
ghost use Rattle.hog_value.specs.Views.{cell_of};
ghost use Rattle.hog_json.specs.Texts.{named_text};
ghost use Rattle.hog_meaning.specs.Operators.{is_part, has_key, part_of, is_in_cell, is_in};

use hog_value::{Cell, Heap, HogText, Kind, Pairs, Value};
use std::convert::AsStr;

/// The text that a value names. Takes no memory.
pub(crate) fn text_named(heap: &Heap, v: Value) -> Option<&HogText>
    requires { NamesBelow (length heap.now) v }
    ensures { option_copied result ≡ named_text heap.entry.now v }
{
    let Value::Ref(n) = v else {
        return None;
    };
    match heap.get(n) {
        Cell::Text(text) => Some(text),
        _ => None,
    }
}

/// Whether a text is part of another. Takes no memory.
fn is_part(part: &HogText, text: &HogText) -> bool
    ensures { result ≡ is_part part.now text.now }
{
    text.as_str().contains(part.as_str())
}

/// Whether an item equals a value. Takes no memory.
fn has_item(heap: &Heap, items: &[Value], v: Value) -> bool
    requires items { All (NamesBelow (length heap.now)) items.now }
    requires value { NamesBelow (length heap.now) v }
    ensures { result ≡ list_any (λ item. same_of heap.now item v) items.now }
{
    items.iter().any(|item| heap.same(*item, v))
}

/// Whether a dictionary has a key; what is no text is none. Takes no memory.
fn has_key(pairs: &Pairs, key: Option<&HogText>) -> bool
    ensures { result ≡ has_key (option_copied key.entry) pairs.now }
{
    match key {
        Some(key) => pairs.map().contains_key(key),
        None => false,
    }
}

/// Whether a value is in the cell with a number. Takes no memory.
fn is_in_cell(heap: &Heap, x: Value, cell: u32) -> Result<bool, Kind>
    requires value { NamesBelow (length heap.now) x }
    requires cell { NamesBelow (length heap.now) (Value.Ref cell) }
    ensures { result ≡ is_in heap.now x (Value.Ref cell) }
{
    match heap.get(cell) {
        Cell::Array(items) => Ok(has_item(heap, items.items(), x)),
        Cell::Dict(pairs) => Ok(has_key(pairs, text_named(heap, x))),
        Cell::Text(text) => match text_named(heap, x) {
            Some(part) => Ok(is_part(part, text)),
            None => Err(Kind::TypeError),
        },
        Cell::Fun(_) => Err(Kind::TypeError),
    }
}

/// Whether a value is in another: an item that is equal, a key, or a part of a text; nothing is in null. Takes no memory.
pub(crate) fn is_in(heap: &Heap, x: Value, y: Value) -> Result<bool, Kind>
    requires left { NamesBelow (length heap.now) x }
    requires right { NamesBelow (length heap.now) y }
    ensures { result ≡ is_in heap.now x y }
{
    match y {
        Value::Null => Ok(false),
        Value::Ref(n) => is_in_cell(heap, x, n),
        _ => Err(Kind::TypeError),
    }
}
