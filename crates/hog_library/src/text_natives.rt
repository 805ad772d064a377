//! The natives that make one text, and those that look into one.

ghost use Rattle.std.specs.Prelude.{◌≡◌, ◌<◌, ◌≤◌, ◌+◌, ◌++◌, length, All, IfOk, OnOk, flat_map, string_bytes};
ghost use Rattle.hog_value.specs.Values.{NamesBelow};
ghost use Rattle.hog_json.specs.Texts.{shown};
ghost use Rattle.hog_library.specs.Products.{Finds, text_found};
ghost use Rattle.hog_library.specs.Natives.{concat_text, length_called, concat_called, to_string_called, to_int_called, upper_called, lower_called, trim_called, starts_with_called, replace_all_called, split_called, json_stringify_called};

use crate::given::{argument, units_left, wanted_text};
use crate::product::Product;
use crate::stop::NativeStop;
use crate::texts;
use hog_json::{json_text, show};
use hog_value::{Cell, Heap, HogText, Meter, Stop, Value};
use std::alloc::Global;
use std::convert::AsStr;

/// A text that was built, as a new cell.
fn new_text(made: Result<HogText, Stop>) -> Result<Product, NativeStop>
    ensures { result ≡ text_found made }
{
    Ok(Product::Cell(Cell::Text(made?)))
}

/// Adds the shown text of a value to a text of at most `units` bytes.
pub(crate) fn put_shown(
    alloc: Global,
    text: &mut String,
    heap: &Heap,
    v: Value,
    units: u32,
) -> Result<(), Stop>
    requires fits { length (string_bytes text.old) ≤ units }
    requires names { NamesBelow (length heap.now) v }
    ensures ok { OnOk result (string_bytes text.new ≡ string_bytes text.old ++ shown heap.now v) }
    ensures fits { length (string_bytes text.new) ≤ units }
    ensures spent { result ≡ Err Stop.UnitsSpent
        → units < length (string_bytes text.old ++ shown heap.now v) }
{
    let shown = show(alloc, heap, v, units)?;
    texts::put(text, shown.as_str(), units)
}

/// Adds the text of a value in `concat`, which is that shown, and nothing for null.
fn put_unless_null(
    alloc: Global,
    text: &mut String,
    heap: &Heap,
    v: Value,
    units: u32,
) -> Result<(), Stop>
    requires fits { length (string_bytes text.old) ≤ units }
    requires names { NamesBelow (length heap.now) v }
    ensures ok { OnOk result (string_bytes text.new ≡ string_bytes text.old ++ concat_text heap.now v) }
    ensures fits { length (string_bytes text.new) ≤ units }
    ensures spent { result ≡ Err Stop.UnitsSpent
        → units < length (string_bytes text.old ++ concat_text heap.now v) }
{
    match v {
        Value::Null => Ok(()),
        _ => put_shown(alloc, text, heap, v, units),
    }
}

/// The texts of values in `concat`, in a row, of at most `units` bytes.
fn joined(alloc: Global, args: &[Value], heap: &Heap, units: u32) -> Result<HogText, Stop>
    requires { All (NamesBelow (length heap.now)) args.now }
    ensures ok { IfOk result (λ made. made ≡ flat_map (concat_text heap.now) args.now) }
    ensures spent { result ≡ Err Stop.UnitsSpent
        → units < length (flat_map (concat_text heap.now) args.now) }
{
    let mut made = String::new(alloc);
    for v in args {
        put_unless_null(alloc, &mut made, heap, *v, units)?;
    }
    Ok(HogText::from_string(made))
}

/// concat(x, ..)
#[tactic(auto, unfolding(crate::specs::Natives::concat_called))]
pub(crate) fn concat(
    alloc: Global,
    args: &[Value],
    heap: &Heap,
    m: &Meter,
) -> Result<Product, NativeStop>
    requires { All (NamesBelow (length heap.now)) args.now }
    ensures { Finds (concat_called args.now heap.now m.now.units) result heap.now m.now.units }
{
    new_text(joined(alloc, args, heap, units_left(m)))
}

/// toString(x)
#[tactic(auto, unfolding(crate::specs::Natives::to_string_called))]
pub(crate) fn to_string(
    alloc: Global,
    args: &[Value],
    heap: &Heap,
    m: &Meter,
) -> Result<Product, NativeStop>
    requires { All (NamesBelow (length heap.now)) args.now }
    ensures { Finds (to_string_called args.now heap.now m.now.units) result heap.now m.now.units }
{
    new_text(show(alloc, heap, argument(args, 0), units_left(m)))
}

/// jsonStringify(x)
#[tactic(auto, unfolding(crate::specs::Natives::json_stringify_called))]
pub(crate) fn json_stringify(
    alloc: Global,
    args: &[Value],
    heap: &Heap,
    m: &Meter,
) -> Result<Product, NativeStop>
    requires { All (NamesBelow (length heap.now)) args.now }
    ensures { Finds (json_stringify_called args.now heap.now m.now.units) result heap.now m.now.units }
{
    new_text(json_text(alloc, heap, argument(args, 0), units_left(m)))
}

/// upper(text)
#[tactic(auto, unfolding(crate::specs::Natives::upper_called))]
pub(crate) fn upper(
    alloc: Global,
    args: &[Value],
    heap: &Heap,
    m: &Meter,
) -> Result<Product, NativeStop>
    requires { All (NamesBelow (length heap.now)) args.now }
    ensures { Finds (upper_called args.now heap.now m.now.units) result heap.now m.now.units }
{
    let text = wanted_text(heap, args, 0)?;
    new_text(texts::upper(alloc, text, units_left(m)))
}

/// lower(text)
#[tactic(auto, unfolding(crate::specs::Natives::lower_called))]
pub(crate) fn lower(
    alloc: Global,
    args: &[Value],
    heap: &Heap,
    m: &Meter,
) -> Result<Product, NativeStop>
    requires { All (NamesBelow (length heap.now)) args.now }
    ensures { Finds (lower_called args.now heap.now m.now.units) result heap.now m.now.units }
{
    let text = wanted_text(heap, args, 0)?;
    new_text(texts::lower(alloc, text, units_left(m)))
}

/// trim(text)
#[tactic(auto, unfolding(crate::specs::Natives::trim_called))]
pub(crate) fn trim(
    alloc: Global,
    args: &[Value],
    heap: &Heap,
    m: &Meter,
) -> Result<Product, NativeStop>
    requires { All (NamesBelow (length heap.now)) args.now }
    ensures { Finds (trim_called args.now heap.now m.now.units) result heap.now m.now.units }
{
    let text = wanted_text(heap, args, 0)?;
    new_text(texts::trimmed(alloc, text, units_left(m)))
}

/// replaceAll(text, from, to)
#[tactic(auto, unfolding(crate::specs::Natives::replace_all_called))]
pub(crate) fn replace_all(
    alloc: Global,
    args: &[Value],
    heap: &Heap,
    m: &Meter,
) -> Result<Product, NativeStop>
    requires { All (NamesBelow (length heap.now)) args.now }
    ensures { Finds (replace_all_called args.now heap.now m.now.units) result heap.now m.now.units }
{
    let text = wanted_text(heap, args, 0)?;
    let from = wanted_text(heap, args, 1)?;
    let to = wanted_text(heap, args, 2)?;
    new_text(texts::replaced(alloc, text, from, to, units_left(m)))
}

/// startsWith(text, start)
#[tactic(auto, unfolding(crate::specs::Natives::starts_with_called))]
pub(crate) fn starts_with(args: &[Value], heap: &Heap, m: &Meter) -> Result<Product, NativeStop>
    requires { All (NamesBelow (length heap.now)) args.now }
    ensures { Finds (starts_with_called args.now heap.now m.now.units) result heap.now m.now.units }
{
    let text = wanted_text(heap, args, 0)?;
    let start = wanted_text(heap, args, 1)?;
    let begins = texts::begins_with(text.bytes(), start.bytes());
    Ok(Product::Value(Value::Bool(begins)))
}

/// splitByString(separator, text)
#[tactic(auto, unfolding(crate::specs::Natives::split_called))]
pub(crate) fn split(
    alloc: Global,
    args: &[Value],
    heap: &Heap,
    m: &Meter,
) -> Result<Product, NativeStop>
    requires { All (NamesBelow (length heap.now)) args.now }
    ensures { Finds (split_called args.now heap.now m.now.units) result heap.now m.now.units }
{
    let separator = wanted_text(heap, args, 0)?;
    let text = wanted_text(heap, args, 1)?;
    let pieces = texts::pieces(alloc, separator, text, units_left(m))?;
    Ok(Product::Texts(pieces))
}
