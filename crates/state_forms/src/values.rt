//! Values, pairs and cells as JSON.

ghost use Rattle.std.specs.Prelude.{◌≡◌, ◌<◌, ◌^◌, ℕ, IfOk, length, map, [], bytes_eq};
ghost use Rattle.std.specs.List.{AllByRecursion, IsDistinct};
ghost use Rattle.std.specs.Map.{keys_of};
ghost use Rattle.serde_json.specs.View.{view};
ghost use Rattle.hog_value.specs.Views.{cell_of};
ghost use Rattle.state_forms.specs.Shapes.{Gives, list, each, list_by};
ghost use Rattle.state_forms.specs.Values.{pair_in, pairs_from, pair_data, cell_by, cell_in, cell_data, PairFits, CellFits};

use crate::forms::{
    Json, array_of, list_value, number, number_u32, read_all, string, text, write_all,
};
use crate::stop::ReadStop;
use hog_value::{Cell, FunCell, Heap, HogText, Items, Numbers, Pairs, Value};
use indexmap::IndexMap;
use serde_json::Number;
use std::alloc::{AllocError, Global};
use std::convert::AsStr;

impl Json for u32 {
    ghost use Rattle.std.specs.Prelude.{◌<◌, ◌^◌};
    ghost use Rattle.state_forms.specs.Shapes.{u32_in, number_data};

    ghost written = { number_data };

    ghost reads = { u32_in };

    ghost fits = { λ n. n < 2 ^ 32 };

    fn read(_alloc: Global, v: &serde_json::Value) -> Result<u32, ReadStop> {
        number_u32(v)
    }

    fn write(&self, _alloc: Global) -> Result<serde_json::Value, AllocError> {
        Ok(number(*self))
    }
}

impl Json for Value {
    ghost use Rattle.state_forms.specs.Values.{value_in, value_data, ValueFits};

    ghost written = { value_data };

    ghost reads = { value_in };

    ghost fits = { ValueFits };

    fn read(_alloc: Global, v: &serde_json::Value) -> Result<Value, ReadStop> {
        match v {
            serde_json::Value::Null => Ok(Value::Null),
            serde_json::Value::Bool(b) => Ok(Value::Bool(*b)),
            serde_json::Value::Number(n) => match n.as_i64() {
                Some(i) => Ok(Value::Int(i)),
                None => Err(ReadStop::Refused),
            },
            serde_json::Value::Array(_) => match array_of(v)? {
                [d] => Ok(Value::Ref(number_u32(d)?)),
                _ => Err(ReadStop::Refused),
            },
            _ => Err(ReadStop::Refused),
        }
    }

    fn write(&self, alloc: Global) -> Result<serde_json::Value, AllocError> {
        match self {
            Value::Null => Ok(serde_json::Value::Null),
            Value::Bool(b) => Ok(serde_json::Value::Bool(*b)),
            Value::Int(i) => Ok(serde_json::Value::Number(Number::from(*i))),
            Value::Ref(n) => Ok(serde_json::Value::Array(vec![in alloc; number(*n)]?)),
        }
    }
}

/// A key and its value.
fn read_pair(alloc: Global, v: &serde_json::Value) -> Result<(HogText, Value), ReadStop>
    ensures gives { Gives (λ p. p) result (pair_in (view v.now)) }
    ensures ranged { IfOk result PairFits }
{
    match array_of(v)? {
        [k, x] => {
            let key = text(alloc, k)?;
            let value = Value::read(alloc, x)?;
            Ok((key, value))
        }
        _ => Err(ReadStop::Refused),
    }
}

/// Pairs, with no key twice.
fn read_pairs(alloc: Global, items: &[serde_json::Value]) -> Result<Pairs, ReadStop>
    ensures gives { Gives (λ p. p) result (pairs_from [] (map view items.now)) }
    ensures ranged { IfOk result (AllByRecursion PairFits) }
    ensures distinct { IfOk result (λ ps. IsDistinct bytes_eq (keys_of ps)) }
{
    let mut map = IndexMap::new(alloc);
    for item in items {
        match read_pair(alloc, item) {
            Ok((key, value)) => {
                if map.insert(key, value)?.is_some() {
                    return Err(ReadStop::Refused);
                }
            }
            Err(e) => return Err(e),
        }
    }
    Ok(Pairs::new(map))
}

fn write_pair(alloc: Global, key: &HogText, value: &Value) -> Result<serde_json::Value, AllocError>
    ensures form { IfOk result (λ v. view v ≡ pair_data (key.now, value.now)) }
    ensures ranged { IfOk result (λ _. PairFits (key.now, value.now)) }
{
    let name = string(alloc, key.as_str())?;
    let held = value.write(alloc)?;
    Ok(serde_json::Value::Array(vec![in alloc; name, held]?))
}

fn write_pairs(alloc: Global, pairs: &Pairs) -> Result<serde_json::Value, AllocError>
    ensures form { IfOk result (λ v. view v ≡ list (map pair_data pairs.now)) }
    ensures ranged { IfOk result (λ _. AllByRecursion PairFits pairs.now) }
    ensures distinct { IsDistinct bytes_eq (keys_of pairs.now) }
{
    let map = pairs.map();
    let mut written = Vec::new(alloc);
    for i in 0..map.len() {
        let Some((key, value)) = map.get_index(i) else {
            unreachable!()
        };
        written.push(write_pair(alloc, key, value)?)?;
    }
    Ok(list_value(written))
}

/// A cell by its letter.
fn read_cell_by(alloc: Global, tag: &str, rest: &[serde_json::Value]) -> Result<Cell, ReadStop>
    ensures gives { Gives cell_of result (cell_by tag.now (map view rest.now)) }
    ensures ranged { IfOk result (λ c. CellFits (cell_of c)) }
{
    match rest {
        [d] => {
            if tag == "t" {
                Ok(Cell::Text(text(alloc, d)?))
            } else if tag == "a" {
                Ok(Cell::Array(Items::new(read_all(alloc, array_of(d)?)?)))
            } else if tag == "d" {
                Ok(Cell::Dict(read_pairs(alloc, array_of(d)?)?))
            } else {
                Err(ReadStop::Refused)
            }
        }
        [d, e] => {
            if tag == "f" {
                let place = number_u32(d)?;
                let captured = Numbers::new(read_all(alloc, array_of(e)?)?);
                Ok(Cell::Fun(FunCell { place, captured }))
            } else {
                Err(ReadStop::Refused)
            }
        }
        _ => Err(ReadStop::Refused),
    }
}

/// A cell.
pub fn read_cell(alloc: Global, v: &serde_json::Value) -> Result<Cell, ReadStop>
    ensures gives { Gives cell_of result (cell_in (view v.now)) }
    ensures ranged { IfOk result (λ c. CellFits (cell_of c)) }
{
    match array_of(v)? {
        [d, rest @ ..] => match d.as_str() {
            Some(tag) => read_cell_by(alloc, tag, rest),
            None => Err(ReadStop::Refused),
        },
        _ => Err(ReadStop::Refused),
    }
}

/// The form of a cell.
pub fn write_cell(alloc: Global, cell: &Cell) -> Result<serde_json::Value, AllocError>
    ensures form { IfOk result (λ v. view v ≡ cell_data (cell_of cell.now)) }
    ensures ranged { IfOk result (λ _. CellFits (cell_of cell.now)) }
{
    match cell {
        Cell::Text(t) => {
            let tag = string(alloc, "t")?;
            let held = string(alloc, t.as_str())?;
            Ok(serde_json::Value::Array(vec![in alloc; tag, held]?))
        }
        Cell::Array(items) => {
            let tag = string(alloc, "a")?;
            let held = write_all(alloc, items.items())?;
            Ok(serde_json::Value::Array(vec![in alloc; tag, held]?))
        }
        Cell::Dict(pairs) => {
            let tag = string(alloc, "d")?;
            let held = write_pairs(alloc, pairs)?;
            Ok(serde_json::Value::Array(vec![in alloc; tag, held]?))
        }
        Cell::Fun(f) => {
            let tag = string(alloc, "f")?;
            let place = number(f.place);
            let held = write_all(alloc, f.captured.items())?;
            Ok(serde_json::Value::Array(vec![in alloc; tag, place, held]?))
        }
    }
}

/// The cells of an array.
#[tactic(auto, unfolding(crate::specs::Shapes::list_by))]
pub fn read_cells(alloc: Global, v: &serde_json::Value) -> Result<Vec<Cell>, ReadStop>
    ensures gives { Gives (λ cells. map cell_of cells.items) result (list_by cell_in (view v.now)) }
    ensures ranged { IfOk result (λ cells. AllByRecursion CellFits (map cell_of cells.items)) }
{
    match array_of(v) {
        Ok(items) => read_all_cells(alloc, items),
        Err(e) => Err(e),
    }
}

/// Each of the items, a cell.
fn read_all_cells(alloc: Global, items: &[serde_json::Value]) -> Result<Vec<Cell>, ReadStop>
    ensures gives { Gives (λ cells. map cell_of cells.items) result (each cell_in (map view items.now)) }
    ensures ranged { IfOk result (λ cells. AllByRecursion CellFits (map cell_of cells.items)) }
{
    let mut found = Vec::new(alloc);
    for item in items {
        match read_cell(alloc, item) {
            Ok(cell) => found.push(cell)?,
            Err(e) => return Err(e),
        }
    }
    Ok(found)
}

/// The array of the forms of a heap's cells.
pub fn write_cells(alloc: Global, heap: &Heap) -> Result<serde_json::Value, AllocError>
    requires { length heap.now < 2 ^ 32 }
    ensures form { IfOk result (λ v. view v ≡ list (map cell_data heap.now)) }
    ensures ranged { IfOk result (λ _. AllByRecursion CellFits heap.now) }
{
    let mut written = Vec::new(alloc);
    for i in 0..heap.len() {
        written.push(write_cell(alloc, heap.get(i as u32))?)?;
    }
    Ok(list_value(written))
}
