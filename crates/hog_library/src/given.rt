//! The arguments of a native, and what they are.

ghost use Rattle.std.specs.Prelude.{◌≡◌, ◌+◌, ◌<◌, ℕ, length, All, IfOk, IfErr, IfSome, IfNone, Some, None, option_map};
ghost use Rattle.std.specs.Option.{option_copied};
ghost use Rattle.hog_value.specs.Values.{NamesBelow};
ghost use Rattle.hog_value.specs.Meters.{max_units};
ghost use Rattle.hog_value.specs.Cells.{CellNamesBelow, HasDistinctKeys};
ghost use Rattle.hog_value.specs.Views.{cell_of};
ghost use Rattle.hog_json.specs.Texts.{named_text};
ghost use Rattle.hog_library.specs.Given.{argument, cell_given, items_given, are_options};

use crate::stop::NativeStop;
use hog_value::meter::MAX_UNITS;
use hog_value::{Cell, Heap, HogText, Items, Kind, Meter, Value};

const WRONG_KIND: NativeStop = NativeStop::Thrown(Kind::TypeError);

/// How many units are left.
pub(crate) fn units_left(m: &Meter) -> u32
    ensures { result + m.now.units ≡ max_units }
{
    MAX_UNITS - m.units
}

/// The argument at a place, from 0; one that isn't there is null.
pub(crate) fn argument(args: &[Value], place: usize) -> Value
    ensures value { result ≡ argument args.now place }
    ensures names { (n : ℕ) → All (NamesBelow n) args.now → NamesBelow n result }
{
    args.get(place).copied().unwrap_or(Value::Null)
}

/// The cell that a value names.
pub(crate) fn cell_given(heap: &Heap, v: Value) -> Option<&Cell>
    requires { NamesBelow (length heap.now) v }
    ensures value { option_map cell_of (option_copied result) ≡ cell_given heap.entry.now v }
    ensures names { IfSome result (λ c. CellNamesBelow (length heap.entry.now) (cell_of c.now)) }
    ensures distinct { IfSome result (λ c. HasDistinctKeys (cell_of c.now)) }
{
    match v {
        Value::Ref(n) => Some(heap.get(n)),
        _ => None,
    }
}

/// The text that a value names.
pub(crate) fn text_given(heap: &Heap, v: Value) -> Option<&HogText>
    requires { NamesBelow (length heap.now) v }
    ensures { option_copied result ≡ named_text heap.entry.now v }
{
    match cell_given(heap, v) {
        Some(Cell::Text(text)) => Some(text),
        _ => None,
    }
}

/// The items of the array that a value names.
pub(crate) fn items_given(heap: &Heap, v: Value) -> Option<&Items>
    requires { NamesBelow (length heap.now) v }
    ensures value { option_copied result ≡ items_given heap.entry.now v }
    ensures names { IfSome result (λ items. All (NamesBelow (length heap.entry.now)) items.now) }
{
    match cell_given(heap, v) {
        Some(Cell::Array(items)) => Some(items),
        _ => None,
    }
}

/// The text that an argument is to be.
pub(crate) fn wanted_text<'a>(
    heap: &'a Heap,
    args: &[Value],
    place: usize,
) -> Result<&'a HogText, NativeStop>
    requires { All (NamesBelow (length heap.now)) args.now }
    ensures ok { IfOk result (λ t. named_text heap.entry.now (argument args.now place) ≡ Some t.now) }
    ensures err { IfErr result (λ e. named_text heap.entry.now (argument args.now place) ≡ None) }
    ensures stop { IfErr result (λ e. e ≡ WRONG_KIND) }
{
    text_given(heap, argument(args, place)).ok_or(WRONG_KIND)
}

/// The items of the array that an argument is to be.
pub(crate) fn wanted_items<'a>(
    heap: &'a Heap,
    args: &[Value],
    place: usize,
) -> Result<&'a Items, NativeStop>
    requires { All (NamesBelow (length heap.now)) args.now }
    ensures ok { IfOk result (λ items. items_given heap.entry.now (argument args.now place) ≡ Some items.now) }
    ensures names { IfOk result (λ items. All (NamesBelow (length heap.entry.now)) items.now) }
    ensures err { IfErr result (λ e. items_given heap.entry.now (argument args.now place) ≡ None) }
    ensures stop { IfErr result (λ e. e ≡ WRONG_KIND) }
{
    items_given(heap, argument(args, place)).ok_or(WRONG_KIND)
}

/// Whether a value is null or names a dictionary.
pub(crate) fn are_options(heap: &Heap, v: Value) -> bool
    requires { NamesBelow (length heap.now) v }
    ensures { result ≡ are_options heap.now v }
{
    match v {
        Value::Null => true,
        Value::Ref(n) => matches!(heap.get(n), Cell::Dict(_)),
        _ => false,
    }
}
