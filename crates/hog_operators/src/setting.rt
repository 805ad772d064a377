//! Setting what a value has under a key.

ghost use Rattle.std.specs.Prelude.{◌≡◌, ◌<◌, length};
ghost use Rattle.hog_value.specs.Values.{NamesBelow};
ghost use Rattle.hog_value.specs.Cells.{IsCovered, text_at};
ghost use Rattle.hog_value.specs.Operations.{set_item_of, set_key_of};
ghost use Rattle.hog_meaning.specs.Operators.{assigned, set_by};
ghost use Rattle.hog_operators.specs.Settles.{Sets};

use hog_value::{Cell, Heap, Kind, Meter, SetStop, Stop, Value};

/// Sets the item of a cell at an index from 1; a cell that is no array has none.
#[tactic(auto, unfolding(hog_value::specs::Operations::set_item_of))]
fn set_item(heap: &mut Heap, cell: u32, index: i64, v: Value, m: &mut Meter) -> Result<(), SetStop>
    requires cell { cell < length heap.old }
    requires names { NamesBelow (length heap.old) v }
    requires covered { IsCovered heap.old m.old.units }
    ensures { Sets (set_item_of heap.old cell index v m.old.units) result heap.old heap.new m.old m.new }
{
    if !matches!(heap.get(cell), Cell::Array(_)) {
        return Err(SetStop::Thrown(Kind::TypeError));
    }
    heap.set_item(cell, index, v, m)
}

/// Sets a key of a cell, which a text of the heap is; a cell that is no dictionary has none.
#[tactic(auto, unfolding(hog_value::specs::Operations::set_key_of))]
fn set_key(heap: &mut Heap, cell: u32, key: u32, v: Value, m: &mut Meter) -> Result<(), SetStop>
    requires cell { cell < length heap.old }
    requires key { key < length heap.old }
    requires names { NamesBelow (length heap.old) v }
    requires covered { IsCovered heap.old m.old.units }
    ensures { Sets (set_by (text_at heap.old key) (λ text. set_key_of heap.old cell text v m.old.units))
        result heap.old heap.new m.old m.new }
{
    let (Cell::Dict(_), Cell::Text(_)) = (heap.get(cell), heap.get(key)) else {
        return Err(SetStop::Thrown(Kind::TypeError));
    };
    match heap.set_key_at(cell, key, v, m) {
        Ok(()) => Ok(()),
        Err(Stop::UnitsSpent) => Err(SetStop::UnitsSpent),
        Err(Stop::OutOfMemory) => Err(SetStop::OutOfMemory),
    }
}

/// Sets what a base has under a key: an array under a whole number, a dictionary under a text. Where it stops, heap and
/// meter are as before.
#[tactic(auto, unfolding(hog_meaning::specs::Operators::assigned))]
pub fn assign(
    heap: &mut Heap,
    base: Value,
    key: Value,
    v: Value,
    m: &mut Meter,
) -> Result<(), SetStop>
    requires base { NamesBelow (length heap.old) base }
    requires key { NamesBelow (length heap.old) key }
    requires value { NamesBelow (length heap.old) v }
    requires covered { IsCovered heap.old m.old.units }
    ensures { Sets (assigned heap.old base key v m.old.units) result heap.old heap.new m.old m.new }
{
    match (base, key) {
        (Value::Ref(n), Value::Int(index)) => set_item(heap, n, index, v, m),
        (Value::Ref(n), Value::Ref(text)) => set_key(heap, n, text, v, m),
        _ => Err(SetStop::Thrown(Kind::TypeError)),
    }
}
