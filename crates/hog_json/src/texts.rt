//! The shown text and the JSON text of a value.

ghost use Rattle.std.specs.Prelude.{◌≡◌, ◌<◌, ◌≤◌, [], IfOk, length, option_map};
ghost use Rattle.hog_value.specs.Values.{NamesBelow};
ghost use Rattle.hog_json.specs.Texts.{json_text_of, most_open, named_text, shown, text_in};
ghost use Rattle.hog_json.specs.Building.{spelling_of};

use crate::builder::Builder;
use crate::style::Style;
use crate::walk::put_value;
use hog_value::{Cell, Heap, HogText, Stop, Value};
use std::alloc::Global;

/// So many cells may be open at a time.
const MOST_OPEN: u32 = 100;

/// The shown text of a value, where it has at most `units` bytes: what `print` and `toString` give.
#[tactic(auto, unfolding(crate::specs::Texts::shown))]
pub fn show(alloc: Global, heap: &Heap, v: Value, units: u32) -> Result<HogText, Stop>
    requires { NamesBelow (length heap.now) v }
    ensures text { IfOk result (λ t. t ≡ shown heap.now v) }
    ensures fits { IfOk result (λ t. length t ≤ units) }
    ensures spent { result ≡ Err Stop.UnitsSpent → units < length (shown heap.now v) }
{
    match text_named(heap, v) {
        Some(text) => {
            if text.bytes().len() > units as usize {
                return Err(Stop::UnitsSpent);
            }
            Ok(text.copy()?)
        }
        None => written(alloc, heap, Style::Shown, v, units),
    }
}

/// The JSON text of a value, where it has at most `units` bytes: what `jsonStringify` gives.
#[tactic(auto, unfolding(crate::specs::Texts::json_text_of))]
pub fn json_text(alloc: Global, heap: &Heap, v: Value, units: u32) -> Result<HogText, Stop>
    requires { NamesBelow (length heap.now) v }
    ensures text { IfOk result (λ t. t ≡ json_text_of heap.now v) }
    ensures fits { IfOk result (λ t. length t ≤ units) }
    ensures spent { result ≡ Err Stop.UnitsSpent → units < length (json_text_of heap.now v) }
{
    written(alloc, heap, Style::Json, v, units)
}

/// The text that a value names. Takes no memory.
fn text_named(heap: &Heap, v: Value) -> Option<&HogText>
    requires { NamesBelow (length heap.now) v }
    ensures { option_map (λ t. t.now) result ≡ named_text heap.entry.now v }
{
    let Value::Ref(n) = v else {
        return None;
    };
    match heap.get(n) {
        Cell::Text(text) => Some(text),
        _ => None,
    }
}

/// The text of a value as it stands where no cell is open.
#[tactic(auto, using(crate::proofs::TextLemmas::text_in_is))]
fn written(alloc: Global, heap: &Heap, style: Style, v: Value, units: u32) -> Result<HogText, Stop>
    requires { NamesBelow (length heap.now) v }
    ensures text { IfOk result (λ t. t ≡ text_in (spelling_of style) heap.now most_open [] v) }
    ensures fits { IfOk result (λ t. length t ≤ units) }
    ensures spent { result ≡ Err Stop.UnitsSpent
        → units < length (text_in (spelling_of style) heap.now most_open [] v) }
{
    let mut out = Builder::new(alloc, units);
    put_value(&mut out, heap, style, v, MOST_OPEN)?;
    Ok(out.finish())
}
