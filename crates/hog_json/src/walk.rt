//! The walk over the cells that a value names, which writes the text of each as it comes to it.

ghost use Rattle.std.specs.Prelude.{◌≡◌, ◌<◌, ◌++◌, ◌∷◌, [], All, OnOk, length};
ghost use Rattle.std.specs.List.{join_by};
ghost use Rattle.hog_value.specs.Values.{NamesBelow};
ghost use Rattle.hog_json.specs.Texts.{bracketed, numbered_text, pair_text, text_in, value_text};
ghost use Rattle.hog_json.specs.Building.{TooLong, deeper, added, mark_before, spelling_of};

use crate::builder::Builder;
use crate::style::Style;
use hog_value::{Cell, Heap, HogText, Pairs, Stop, Value};

/// Adds the text of a value inside the open cells, where `room` more cells may be opened.
#[cycle(walk)]
pub(crate) fn put_value(
    out: &mut Builder,
    heap: &Heap,
    style: Style,
    v: Value,
    room: u32,
) -> Result<(), Stop>
    requires { NamesBelow (length heap.now) v }
    ensures ok { OnOk result (out.new
        ≡ added (value_text (spelling_of style) heap.now (deeper (spelling_of style) heap.now room)
        out.old.open_cells v) out.old) }
    ensures spent { result ≡ Err Stop.UnitsSpent
        → TooLong (value_text (spelling_of style) heap.now (deeper (spelling_of style) heap.now room)
        out.old.open_cells v) out.old }
{
    match v {
        Value::Null => out.put("null"),
        Value::Bool(true) => out.put("true"),
        Value::Bool(false) => out.put("false"),
        Value::Int(n) => out.put_number(n),
        Value::Ref(n) => {
            if out.is_open(n) {
                return out.put(style.cycle());
            }
            put_cell(out, heap, style, n, room)
        }
    }
}

/// Adds the text of a cell that isn't open.
#[cycle(walk)]
fn put_cell(out: &mut Builder, heap: &Heap, style: Style, n: u32, room: u32) -> Result<(), Stop>
    requires { n < length heap.now }
    ensures ok { OnOk result (out.new
        ≡ added (numbered_text (spelling_of style) heap.now (deeper (spelling_of style) heap.now room)
        out.old.open_cells n) out.old) }
    ensures spent { result ≡ Err Stop.UnitsSpent
        → TooLong (numbered_text (spelling_of style) heap.now (deeper (spelling_of style) heap.now room)
        out.old.open_cells n) out.old }
{
    match heap.get(n) {
        Cell::Text(text) => put_text(out, style, text),
        Cell::Fun(_) => out.put(style.function()),
        Cell::Array(items) => {
            if room == 0 {
                return out.put(style.deep());
            }
            put_array(out, heap, style, n, items.items(), room - 1)
        }
        Cell::Dict(pairs) => {
            if room == 0 {
                return out.put(style.deep());
            }
            put_dict(out, heap, style, n, pairs, room - 1)
        }
    }
}

/// Adds the text of an array.
#[cycle(walk)]
fn put_array(
    out: &mut Builder,
    heap: &Heap,
    style: Style,
    n: u32,
    items: &[Value],
    room: u32,
) -> Result<(), Stop>
    requires { All (NamesBelow (length heap.now)) items.now }
    ensures ok { OnOk result (out.new
        ≡ added (bracketed 91 93 (join_by (text_in (spelling_of style) heap.now room
        (out.old.open_cells ++ n ∷ [])) (spelling_of style).comma items.now)) out.old) }
    ensures spent { result ≡ Err Stop.UnitsSpent
        → TooLong (bracketed 91 93 (join_by (text_in (spelling_of style) heap.now room
        (out.old.open_cells ++ n ∷ [])) (spelling_of style).comma items.now)) out.old }
{
    out.enter(n)?;
    out.put("[")?;
    put_items(out, heap, style, items, room)?;
    out.put("]")?;
    out.leave();
    Ok(())
}

/// Adds the texts of the items of an open array.
#[cycle(walk)]
fn put_items(
    out: &mut Builder,
    heap: &Heap,
    style: Style,
    items: &[Value],
    room: u32,
) -> Result<(), Stop>
    requires { All (NamesBelow (length heap.now)) items.now }
    ensures ok { OnOk result (out.new
        ≡ added (join_by (text_in (spelling_of style) heap.now room out.old.open_cells)
        (spelling_of style).comma items.now) out.old) }
    ensures spent { result ≡ Err Stop.UnitsSpent
        → TooLong (join_by (text_in (spelling_of style) heap.now room out.old.open_cells)
        (spelling_of style).comma items.now) out.old }
{
    for i in 0..items.len() {
        put_mark(out, style, i)?;
        put_value(out, heap, style, items[i], room)?;
    }
    Ok(())
}

/// Adds the text of a dictionary.
#[cycle(walk)]
fn put_dict(
    out: &mut Builder,
    heap: &Heap,
    style: Style,
    n: u32,
    pairs: &Pairs,
    room: u32,
) -> Result<(), Stop>
    requires { All (λ p. NamesBelow (length heap.now) p.1) pairs.now }
    ensures ok { OnOk result (out.new
        ≡ added (bracketed 123 125 (join_by (pair_text (spelling_of style)
        (text_in (spelling_of style) heap.now room (out.old.open_cells ++ n ∷ [])))
        (spelling_of style).comma pairs.now)) out.old) }
    ensures spent { result ≡ Err Stop.UnitsSpent
        → TooLong (bracketed 123 125 (join_by (pair_text (spelling_of style)
        (text_in (spelling_of style) heap.now room (out.old.open_cells ++ n ∷ [])))
        (spelling_of style).comma pairs.now)) out.old }
{
    out.enter(n)?;
    out.put("{")?;
    put_pairs(out, heap, style, pairs, room)?;
    out.put("}")?;
    out.leave();
    Ok(())
}

/// Adds the texts of the pairs of an open dictionary.
#[cycle(walk)]
fn put_pairs(
    out: &mut Builder,
    heap: &Heap,
    style: Style,
    pairs: &Pairs,
    room: u32,
) -> Result<(), Stop>
    requires { All (λ p. NamesBelow (length heap.now) p.1) pairs.now }
    ensures ok { OnOk result (out.new
        ≡ added (join_by (pair_text (spelling_of style)
        (text_in (spelling_of style) heap.now room out.old.open_cells))
        (spelling_of style).comma pairs.now) out.old) }
    ensures spent { result ≡ Err Stop.UnitsSpent
        → TooLong (join_by (pair_text (spelling_of style)
        (text_in (spelling_of style) heap.now room out.old.open_cells))
        (spelling_of style).comma pairs.now) out.old }
{
    let map = pairs.map();
    for i in 0..map.len() {
        let Some((key, v)) = map.get_index(i) else {
            unreachable!()
        };
        put_mark(out, style, i)?;
        put_pair(out, heap, style, key, *v, room)?;
    }
    Ok(())
}

/// Adds the text of a pair of an open dictionary.
#[cycle(walk)]
#[tactic(auto, using(crate::proofs::TextLemmas::text_in_is))]
fn put_pair(
    out: &mut Builder,
    heap: &Heap,
    style: Style,
    key: &HogText,
    v: Value,
    room: u32,
) -> Result<(), Stop>
    requires { NamesBelow (length heap.now) v }
    ensures ok { OnOk result (out.new
        ≡ added (pair_text (spelling_of style)
        (text_in (spelling_of style) heap.now room out.old.open_cells) (key.now, v)) out.old) }
    ensures spent { result ≡ Err Stop.UnitsSpent
        → TooLong (pair_text (spelling_of style)
        (text_in (spelling_of style) heap.now room out.old.open_cells) (key.now, v)) out.old }
{
    put_text(out, style, key)?;
    out.put(style.colon())?;
    put_value(out, heap, style, v, room)
}

/// Adds a text or a key as it stands inside.
fn put_text(out: &mut Builder, style: Style, text: &HogText) -> Result<(), Stop>
    ensures ok { OnOk result (out.new ≡ added ((spelling_of style).text text.now) out.old) }
    ensures spent { result ≡ Err Stop.UnitsSpent
        → TooLong ((spelling_of style).text text.now) out.old }
{
    match style {
        Style::Shown => out.put_single_quoted(text),
        Style::Json => out.put_quoted(text),
    }
}

/// Adds what stands before the item at a place.
fn put_mark(out: &mut Builder, style: Style, i: usize) -> Result<(), Stop>
    ensures ok { OnOk result (out.new ≡ added (mark_before (spelling_of style).comma i) out.old) }
    ensures spent { result ≡ Err Stop.UnitsSpent
        → TooLong (mark_before (spelling_of style).comma i) out.old }
{
    if i == 0 {
        return Ok(());
    }
    out.put(style.comma())
}
