//! The natives on arrays, dictionaries and values of any kind.

ghost use Rattle.std.specs.Prelude.{◌≡◌, ◌<◌, ◌++◌, ◌∷◌, [], pos, length, map, All, IfOk, IfSome, OnOk, option_map, Some};
ghost use Rattle.std.specs.List.{list_any};
ghost use Rattle.std.specs.Map.{keys_of};
ghost use Rattle.std.specs.Option.{option_copied};
ghost use Rattle.hog_value.specs.Values.{NamesBelow};
ghost use Rattle.hog_value.specs.Cells.{CellNamesBelow};
ghost use Rattle.hog_value.specs.Operations.{same_of};
ghost use Rattle.hog_value.specs.Views.{cell_of};
ghost use Rattle.hog_json.specs.Texts.{named_text};
ghost use Rattle.hog_library.specs.Cells.{cost_of_items};
ghost use Rattle.hog_library.specs.Products.{Finds};
ghost use Rattle.hog_library.specs.Given.{argument, cell_given};
ghost use Rattle.hog_library.specs.Natives.{size_of, has_nothing, is_empty, numbers_to, values_of_cell, number_of, number_or_null, days_between, int_given, length_called, to_int_called, keys_called, values_called, has_called, push_back_called, empty_called};

use crate::date_natives::number_or_null;
use crate::given::{
    argument, cell_given, items_given, text_given, units_left, wanted_items, wanted_text,
};
use crate::product::Product;
use crate::stop::NativeStop;
use crate::texts;
use hog_value::{Cell, Heap, HogText, Items, Kind, Meter, Pairs, Stop, Value};
use std::alloc::{AllocError, Global};
use std::convert::AsStr;

const WRONG_KIND: NativeStop = NativeStop::Thrown(Kind::TypeError);

/// A count as a value. A count past the whole numbers of 64 bits has no memory that it could count.
fn count_value(n: usize) -> Result<Value, AllocError>
    ensures { IfOk result (λ v. v ≡ Value.Int (pos n)) }
{
    match i64::try_from(n) {
        Ok(count) => Ok(Value::Int(count)),
        Err(_) => Err(AllocError),
    }
}

/// How many characters, items or pairs a cell has.
fn size(cell: &Cell) -> Option<usize>
    ensures { result ≡ size_of (cell_of cell.now) }
{
    match cell {
        Cell::Text(text) => Some(texts::count_characters(text)),
        Cell::Array(items) => Some(items.items().len()),
        Cell::Dict(pairs) => Some(pairs.map().len()),
        Cell::Fun(_) => None,
    }
}

/// length(x)
#[tactic(auto, unfolding(crate::specs::Natives::length_called))]
pub(crate) fn length(args: &[Value], heap: &Heap, m: &Meter) -> Result<Product, NativeStop>
    requires { All (NamesBelow (length heap.now)) args.now }
    ensures { Finds (length_called args.now heap.now m.now.units) result heap.now m.now.units }
{
    let Some(cell) = cell_given(heap, argument(args, 0)) else {
        return Err(WRONG_KIND);
    };
    let Some(n) = size(cell) else {
        return Err(WRONG_KIND);
    };
    Ok(Product::Value(count_value(n)?))
}

/// The whole number that a value is or spells.
fn number(heap: &Heap, v: Value) -> Option<i64>
    requires { NamesBelow (length heap.now) v }
    ensures { result ≡ number_of heap.now v }
{
    match v {
        Value::Null => None,
        Value::Bool(b) => Some(i64::from(b)),
        Value::Int(z) => Some(z),
        Value::Ref(_) => texts::number_in(text_given(heap, v)?),
    }
}

/// toInt(x)
#[tactic(auto, unfolding(crate::specs::Natives::to_int_called))]
pub(crate) fn to_int(args: &[Value], heap: &Heap, m: &Meter) -> Result<Product, NativeStop>
    requires { All (NamesBelow (length heap.now)) args.now }
    ensures { Finds (to_int_called args.now heap.now m.now.units) result heap.now m.now.units }
{
    Ok(Product::Value(number_or_null(number(heap, argument(args, 0)))))
}

/// The whole numbers from 1 to n as values.
fn numbers_to(alloc: Global, n: usize) -> Result<Vec<Value>, AllocError>
    ensures { IfOk result (λ vs. vs.items ≡ numbers_to n) }
{
    let mut numbers = Vec::new(alloc);
    for k in 0..n {
        numbers.push(count_value(k + 1)?)?;
    }
    Ok(numbers)
}

/// The keys of a dictionary, where new texts and an array of them cost at most `units`.
fn key_texts(alloc: Global, pairs: &Pairs, units: u32) -> Result<Vec<HogText>, Stop>
    ensures ok { IfOk result (λ made. made.items ≡ keys_of pairs.now) }
    ensures spent { result ≡ Err Stop.UnitsSpent → units < cost_of_items (keys_of pairs.now) }
{
    let mut made = Vec::new(alloc);
    let mut left = units;
    for i in 0..pairs.map().len() {
        let Some((key, _)) = pairs.map().get_index(i) else {
            unreachable!()
        };
        left = texts::add_item(&mut made, key.as_str(), left)?;
    }
    Ok(made)
}

/// keys(x)
#[tactic(auto, unfolding(crate::specs::Natives::keys_called))]
pub(crate) fn keys(
    alloc: Global,
    args: &[Value],
    heap: &Heap,
    m: &Meter,
) -> Result<Product, NativeStop>
    requires { All (NamesBelow (length heap.now)) args.now }
    ensures { Finds (keys_called args.now heap.now m.now.units) result heap.now m.now.units }
{
    match cell_given(heap, argument(args, 0)) {
        Some(Cell::Array(items)) => {
            let n = items.items().len();
            if n > units_left(m) as usize {
                return Err(NativeStop::UnitsSpent);
            }
            Ok(Product::Cell(Cell::Array(Items::new(numbers_to(alloc, n)?))))
        }
        Some(Cell::Dict(pairs)) => Ok(Product::Texts(key_texts(alloc, pairs, units_left(m))?)),
        _ => Err(WRONG_KIND),
    }
}

/// The values of a dictionary in order.
fn pair_values(alloc: Global, pairs: &Pairs) -> Result<Vec<Value>, AllocError>
    ensures { IfOk result (λ vs. vs.items ≡ map (λ p. p.1) pairs.now) }
{
    let mut values = Vec::new(alloc);
    for i in 0..pairs.map().len() {
        let Some((_, value)) = pairs.map().get_index(i) else {
            unreachable!()
        };
        values.push(*value)?;
    }
    Ok(values)
}

/// The items of an array, or the values of a dictionary, in a list of their own.
fn value_list(alloc: Global, cell: &Cell) -> Result<Option<Vec<Value>>, AllocError>
    ensures { IfOk result (λ found. option_map (λ vs. vs.items) found ≡ values_of_cell (cell_of cell.now)) }
{
    match cell {
        Cell::Array(items) => Ok(Some(items.items().to_vec(alloc)?)),
        Cell::Dict(pairs) => Ok(Some(pair_values(alloc, pairs)?)),
        _ => Ok(None),
    }
}

/// values(x)
#[tactic(auto, unfolding(crate::specs::Natives::values_called))]
pub(crate) fn values(
    alloc: Global,
    args: &[Value],
    heap: &Heap,
    m: &Meter,
) -> Result<Product, NativeStop>
    requires { All (NamesBelow (length heap.now)) args.now }
    ensures { Finds (values_called args.now heap.now m.now.units) result heap.now m.now.units }
{
    let Some(cell) = cell_given(heap, argument(args, 0)) else {
        return Err(WRONG_KIND);
    };
    match value_list(alloc, cell)? {
        Some(values) => Ok(Product::Cell(Cell::Array(Items::new(values)))),
        None => Err(WRONG_KIND),
    }
}

/// has(array, x)
#[tactic(auto, unfolding(crate::specs::Natives::has_called))]
pub(crate) fn has(args: &[Value], heap: &Heap, m: &Meter) -> Result<Product, NativeStop>
    requires { All (NamesBelow (length heap.now)) args.now }
    ensures { Finds (has_called args.now heap.now m.now.units) result heap.now m.now.units }
{
    let items = wanted_items(heap, args, 0)?;
    Ok(Product::Value(Value::Bool(contains(heap, items.items(), argument(args, 1)))))
}

/// Whether an item equals a value.
fn contains(heap: &Heap, items: &[Value], v: Value) -> bool
    requires items { All (NamesBelow (length heap.now)) items.now }
    requires value { NamesBelow (length heap.now) v }
    ensures { result ≡ list_any (λ item. same_of heap.now item v) items.now }
{
    items.iter().any(|item| heap.same(*item, v))
}

/// arrayPushBack(array, x)
#[tactic(auto, unfolding(crate::specs::Natives::push_back_called))]
pub(crate) fn push_back(
    alloc: Global,
    args: &[Value],
    heap: &Heap,
    m: &Meter,
) -> Result<Product, NativeStop>
    requires { All (NamesBelow (length heap.now)) args.now }
    ensures { Finds (push_back_called args.now heap.now m.now.units) result heap.now m.now.units }
{
    let items = wanted_items(heap, args, 0)?;
    let longer = with_item(alloc, items.items(), argument(args, 1))?;
    Ok(Product::Cell(Cell::Array(Items::new(longer))))
}

/// The values, and one more behind them.
fn with_item(alloc: Global, items: &[Value], v: Value) -> Result<Vec<Value>, AllocError>
    ensures { IfOk result (λ longer. longer.items ≡ items.now ++ v ∷ []) }
{
    let mut longer = items.to_vec(alloc)?;
    longer.push(v)?;
    Ok(longer)
}

/// Whether an array or a dictionary has nothing in it.
fn has_nothing(cell: &Cell) -> bool
    ensures { result ≡ has_nothing (cell_of cell.now) }
{
    match cell {
        Cell::Array(items) => items.items().is_empty(),
        Cell::Dict(pairs) => pairs.map().is_empty(),
        _ => false,
    }
}

/// empty(x)
#[tactic(auto, unfolding(crate::specs::Natives::empty_called))]
pub(crate) fn empty(args: &[Value], heap: &Heap, m: &Meter) -> Result<Product, NativeStop>
    requires { All (NamesBelow (length heap.now)) args.now }
    ensures { Finds (empty_called args.now heap.now m.now.units) result heap.now m.now.units }
{
    Ok(Product::Value(Value::Bool(is_empty(heap, argument(args, 0)))))
}

/// Whether a value is false, or names an array or a dictionary with nothing in it.
fn is_empty(heap: &Heap, v: Value) -> bool
    requires { NamesBelow (length heap.now) v }
    ensures { result ≡ is_empty heap.now v }
{
    if !heap.truth(v) {
        return true;
    }
    match cell_given(heap, v) {
        Some(cell) => has_nothing(cell),
        None => false,
    }
}
