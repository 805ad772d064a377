//! Heaps: cells by number.

ghost use Rattle.std.specs.Prelude.{◌≡◌};
ghost use Rattle.hog_value.specs.Cells as cells;
ghost use Rattle.hog_value.specs.Operations.{place_of};

use crate::cell::Cell;
use crate::meter::Meter;
use crate::text::HogText;
use crate::value::{Kind, SetStop, Stop, Value};
use std::alloc::Global;
use std::marker::Model;

/// Cells, which only grow. A cell's number is its place, from 0, and each value in the cells names a cell
/// of the heap, where it names one. Contracts see the list of the cells.
#[derive(Drop)]
pub struct Heap {
    cells: Vec<Cell>,
}

impl Model for Heap {
    ghost use Rattle.std.specs.Prelude.{map};
    ghost use Rattle.hog_value.specs.declared.cell.FunCell.{FunCell};
    ghost use Rattle.hog_value.specs.Cells.{HeapOf, IsSound};

    ghost Value = { HeapOf FunCell };

    ghost use Rattle.hog_value.specs.Views.{cell_of};

    ghost view = { λ h. map cell_of h.cells.items };

    ghost invariant = { λ h. IsSound (map cell_of h.cells.items) };
}

impl Heap {
    ghost use Rattle.std.specs.Prelude.{◌≡◌, ◌<◌, ◌↔◌, ◌+◌, ◌++◌, ◌∷◌, [], length, IfOk, IfSome, OnOk, OnErr, IsSome, Some, Ok, slice_get, map, take};
    ghost use Rattle.hog_value.specs.declared.value.Kind.{Kind as AKind};
    ghost use Rattle.hog_value.specs.Values.{NamesBelow};
    ghost use Rattle.hog_value.specs.Cells.{IsClosed, IsSound, IsCovered, CellNamesBelow, HasDistinctKeys, items_at, pairs_at, text_at, cost_of_cell};
    ghost use Rattle.hog_value.specs.Operations.{Gives, Throws, Spends, made, item_of, key_of, set_item_of, set_key_of, same_of, truth_of};
    ghost use Rattle.hog_value.specs.Views.{cell_of};

    /// No cells. Takes no memory.
    pub fn new(alloc: Global) -> Heap
        ensures { result ≡ [] }
    {
        Heap {
            cells: Vec::new(alloc),
        }
    }

    /// The cell with the number n. Takes no memory.
    pub fn get(&self, n: u32) -> &Cell
        requires { n < length self.now }
        ensures cell { slice_get self.now n ≡ Some (cell_of result.now) }
        ensures names { CellNamesBelow (length self.now) (cell_of result.now) }
        ensures distinct { HasDistinctKeys (cell_of result.now) }
    {
        &self.cells[n as usize]
    }

    /// A heap of these cells. Takes no memory.
    pub fn from_cells(cells: Vec<Cell>) -> Heap
        requires { IsSound (map cell_of cells.items) }
        ensures { result ≡ map cell_of cells.items }
    {
        Heap { cells }
    }

    /// How many cells there are. Takes no memory.
    pub fn len(&self) -> usize
        ensures count { result ≡ length self.now }
        ensures sound { IsSound self.now }
    {
        self.cells.len()
    }

    /// Takes back the cells from the number n on, as after a failure that is to leave no trace. Takes no memory.
    pub fn truncate(&mut self, n: usize)
        requires { IsClosed (take n self.old) }
        ensures { self.new ≡ take n self.old }
    {
        self.cells.truncate(n);
    }

    /// Makes a cell, and charges its cost.
    #[tactic(auto, unfolding(crate::specs::Operations::made))]
    pub fn make(&mut self, c: Cell, m: &mut Meter) -> Result<Value, Stop>
        requires names { CellNamesBelow (length self.old) (cell_of c) }
        requires covered { IsCovered self.old m.old.units }
        ensures ok { IfOk result
            (λ v. made (cell_of c) self.old m.old.units ≡ Gives v self.new m.new.units) }
        ensures cell { OnOk result (self.new ≡ self.old ++ cell_of c ∷ []) }
        ensures number { IfOk result (λ v. v ≡ Value.Ref (length self.old)) }
        ensures charge { OnOk result
            (m.new ≡ record m.old { units = m.old.units + cost_of_cell (cell_of c) }) }
        ensures spent { (result ≡ Err Stop.UnitsSpent)
            ↔ (made (cell_of c) self.old m.old.units ≡ Spends) }
        ensures err { OnErr result (self.new ≡ self.old) }
        ensures err_meter { OnErr result (m.new ≡ m.old) }
        ensures covered { IsCovered self.new m.new.units }
    {
        let mut paid = *m;
        if !paid.spend_units(c.cost()) {
            return Err(Stop::UnitsSpent);
        }
        let n = self.cells.len() as u32;
        self.cells.push(c)?;
        *m = paid;
        Ok(Value::Ref(n))
    }

    /// The item of an array at an index from 1. Takes no memory.
    #[tactic(auto, unfolding(crate::specs::Operations::item_of))]
    pub fn item(&self, array: u32, index: i64) -> Result<Value, Kind>
        requires { IsSome (items_at self.now array) }
        ensures value { result ≡ item_of self.now array index }
        ensures names { IfOk result (NamesBelow (length self.now)) }
    {
        let Cell::Array(items) = self.get(array) else {
            unreachable!()
        };
        let Some(place) = place_at(index) else {
            return Err(Kind::IndexError);
        };
        Ok(items.items().get(place).copied().unwrap_or(Value::Null))
    }

    /// The value of a dictionary at a key. It walks over the pairs. Takes no memory.
    #[tactic(auto, unfolding(crate::specs::Operations::key_of))]
    pub fn key(&self, dict: u32, key: &[u8]) -> Value
        requires { IsSome (pairs_at self.now dict) }
        ensures value { Ok result ≡ key_of self.now dict key.now }
        ensures names { NamesBelow (length self.now) result }
    {
        let Cell::Dict(pairs) = self.get(dict) else {
            unreachable!()
        };
        pairs.at_bytes(key).unwrap_or(Value::Null)
    }

    /// Sets the item of an array at an index from 1, or appends it one past the end, for 8 units.
    #[tactic(auto, unfolding(crate::specs::Operations::set_item_of))]
    pub fn set_item(
        &mut self,
        array: u32,
        index: i64,
        v: Value,
        m: &mut Meter,
    ) -> Result<(), SetStop>
        requires array { IsSome (items_at self.old array) }
        requires names { NamesBelow (length self.old) v }
        requires covered { IsCovered self.old m.old.units }
        ensures ok { OnOk result
            (set_item_of self.old array index v m.old.units ≡ Gives tt self.new m.new.units) }
        ensures turns_and_depth { OnOk result (m.new ≡ record m.old { units = m.new.units }) }
        ensures thrown { (kind : AKind) → (result ≡ Err (SetStop.Thrown kind))
            ↔ (set_item_of self.old array index v m.old.units ≡ Throws kind) }
        ensures spent { (result ≡ Err SetStop.UnitsSpent)
            ↔ (set_item_of self.old array index v m.old.units ≡ Spends) }
        ensures err { OnErr result (self.new ≡ self.old) }
        ensures err_meter { OnErr result (m.new ≡ m.old) }
        ensures count { length self.new ≡ length self.old }
        ensures covered { IsCovered self.new m.new.units }
    {
        let Cell::Array(items) = &mut self.cells[array as usize] else {
            unreachable!()
        };
        let Some(place) = place_at(index) else {
            return Err(SetStop::Thrown(Kind::IndexError));
        };
        let len = items.items().len();
        if place < len {
            items.set(place, v);
            return Ok(());
        }
        if place > len {
            return Err(SetStop::Thrown(Kind::IndexError));
        }
        let mut paid = *m;
        if !paid.spend_units(8) {
            return Err(SetStop::UnitsSpent);
        }
        items.push(v)?;
        *m = paid;
        Ok(())
    }

    /// Sets a key of a dictionary: one that is there keeps its place, and a new one is copied, goes last and is charged.
    #[tactic(auto, unfolding(crate::specs::Operations::set_key_of))]
    pub fn set_key(&mut self, dict: u32, key: &HogText, v: Value, m: &mut Meter) -> Result<(), Stop>
        requires dict { IsSome (pairs_at self.old dict) }
        requires names { NamesBelow (length self.old) v }
        requires covered { IsCovered self.old m.old.units }
        ensures ok { OnOk result
            (set_key_of self.old dict key.now v m.old.units ≡ Gives tt self.new m.new.units) }
        ensures turns_and_depth { OnOk result (m.new ≡ record m.old { units = m.new.units }) }
        ensures spent { (result ≡ Err Stop.UnitsSpent)
            ↔ (set_key_of self.old dict key.now v m.old.units ≡ Spends) }
        ensures err { OnErr result (self.new ≡ self.old) }
        ensures err_meter { OnErr result (m.new ≡ m.old) }
        ensures count { length self.new ≡ length self.old }
        ensures covered { IsCovered self.new m.new.units }
    {
        let Cell::Dict(pairs) = &mut self.cells[dict as usize] else {
            unreachable!()
        };
        if let Some(place) = pairs.place(key) {
            pairs.set_at(place, v);
            return Ok(());
        }
        let mut paid = *m;
        if !paid.spend_units(cost_of_pair(key)) {
            return Err(Stop::UnitsSpent);
        }
        pairs.insert(key.copy()?, v)?;
        *m = paid;
        Ok(())
    }

    /// Sets a key of a dictionary, the text with the number `key`: one that is there keeps its place, and a new one
    /// is copied, goes last and is charged.
    #[tactic(auto, unfolding(crate::specs::Operations::set_key_of))]
    pub fn set_key_at(&mut self, dict: u32, key: u32, v: Value, m: &mut Meter) -> Result<(), Stop>
        requires dict { IsSome (pairs_at self.old dict) }
        requires key { IsSome (text_at self.old key) }
        requires names { NamesBelow (length self.old) v }
        requires covered { IsCovered self.old m.old.units }
        ensures ok { IfSome (text_at self.old key) (λ text. OnOk result
            (set_key_of self.old dict text v m.old.units ≡ Gives tt self.new m.new.units)) }
        ensures turns_and_depth { OnOk result (m.new ≡ record m.old { units = m.new.units }) }
        ensures spent { IfSome (text_at self.old key) (λ text. (result ≡ Err Stop.UnitsSpent)
            ↔ (set_key_of self.old dict text v m.old.units ≡ Spends)) }
        ensures err { OnErr result (self.new ≡ self.old) }
        ensures err_meter { OnErr result (m.new ≡ m.old) }
        ensures count { length self.new ≡ length self.old }
        ensures covered { IsCovered self.new m.new.units }
    {
        let Cell::Text(text) = self.get(key) else {
            unreachable!()
        };
        let Cell::Dict(pairs) = self.get(dict) else {
            unreachable!()
        };
        if let Some(place) = pairs.place(text) {
            let Cell::Dict(pairs) = &mut self.cells[dict as usize] else {
                unreachable!()
            };
            pairs.set_at(place, v);
            return Ok(());
        }
        let mut paid = *m;
        if !paid.spend_units(cost_of_pair(text)) {
            return Err(Stop::UnitsSpent);
        }
        let text = text.copy()?;
        let Cell::Dict(pairs) = &mut self.cells[dict as usize] else {
            unreachable!()
        };
        pairs.insert(text, v)?;
        *m = paid;
        Ok(())
    }

    /// The language's `==`. Takes no memory.
    #[tactic(auto, unfolding(crate::specs::Operations::same_of))]
    pub fn same(&self, a: Value, b: Value) -> bool
        requires left { NamesBelow (length self.now) a }
        requires right { NamesBelow (length self.now) b }
        ensures { result ≡ same_of self.now a b }
    {
        match (a, b) {
            (Value::Null, Value::Null) => true,
            (Value::Bool(x), Value::Bool(y)) => x == y,
            (Value::Int(x), Value::Int(y)) => x == y,
            (Value::Ref(x), Value::Ref(y)) => x == y || self.same_text(x, y),
            _ => false,
        }
    }

    /// Whether a value counts as true in a condition. Takes no memory.
    #[tactic(auto, unfolding(crate::specs::Operations::truth_of))]
    pub fn truth(&self, v: Value) -> bool
        requires { NamesBelow (length self.now) v }
        ensures { result ≡ truth_of self.now v }
    {
        match v {
            Value::Null => false,
            Value::Bool(b) => b,
            Value::Int(n) => n != 0,
            Value::Ref(n) => match self.get(n) {
                Cell::Text(text) => !text.bytes().is_empty(),
                _ => true,
            },
        }
    }
}

/// The units of a new pair with this key.
fn cost_of_pair(key: &HogText) -> u64
    ensures { result ≡ cells.cost_of_pair key.now }
{
    key.bytes().len() as u64 + 16
}

/// The place of an index, which counts from 1.
fn place_at(index: i64) -> Option<usize>
    ensures { result ≡ place_of index }
{
    if index < 1 {
        None
    } else {
        Some((index - 1) as usize)
    }
}

impl Heap {
    ghost use Rattle.std.specs.Prelude.{◌≡◌, ◌<◌, length};
    ghost use Rattle.hog_value.specs.Cells.{text_at};
    ghost use Rattle.hog_value.specs.Operations.{same_texts};

    /// Whether two cells are texts with the same bytes.
    fn same_text(&self, a: u32, b: u32) -> bool
        requires left { a < length self.now }
        requires right { b < length self.now }
        ensures { result ≡ same_texts (text_at self.now a) (text_at self.now b) }
    {
        match (self.get(a), self.get(b)) {
            (Cell::Text(x), Cell::Text(y)) => x == y,
            _ => false,
        }
    }
}
