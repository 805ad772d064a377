//! The order of two values.

ghost use Rattle.std.specs.Prelude.{◌≡◌, length};
ghost use Rattle.hog_value.specs.Values.{NamesBelow};
ghost use Rattle.hog_meaning.specs.Operators.{order_of, compared};
ghost use Rattle.hog_operators.specs.Tests.{test_of};

use hog_tree::tree::BinaryOp;
use hog_value::{Cell, Heap, Kind, Value};
use std::cmp::Ordering;

/// The order of two whole numbers, or of two texts by their bytes. Takes no memory.
pub(crate) fn order(heap: &Heap, x: Value, y: Value) -> Option<Ordering>
    requires left { NamesBelow (length heap.now) x }
    requires right { NamesBelow (length heap.now) y }
    ensures { result ≡ order_of heap.now x y }
{
    match (x, y) {
        (Value::Int(a), Value::Int(b)) => Some(a.cmp(&b)),
        (Value::Ref(m), Value::Ref(n)) => match (heap.get(m), heap.get(n)) {
            (Cell::Text(s), Cell::Text(t)) => Some(s.cmp(t)),
            _ => None,
        },
        _ => None,
    }
}

/// Whether an order passes the test of a comparison.
fn passes(op: BinaryOp, order: Ordering) -> bool
    ensures { result ≡ test_of op order }
{
    match op {
        BinaryOp::Less => order == Ordering::Less,
        BinaryOp::LessEqual => order != Ordering::Greater,
        BinaryOp::Greater => order == Ordering::Greater,
        _ => order != Ordering::Less,
    }
}

/// Whether the order of two values passes the test of a comparison. Takes no memory.
pub(crate) fn compare(op: BinaryOp, heap: &Heap, x: Value, y: Value) -> Result<Value, Kind>
    requires left { NamesBelow (length heap.now) x }
    requires right { NamesBelow (length heap.now) y }
    ensures { result ≡ compared heap.now (test_of op) x y }
{
    match order(heap, x, y) {
        Some(order) => Ok(Value::Bool(passes(op, order))),
        None => Err(Kind::TypeError),
    }
}
