//! An operator on two values.

ghost use Rattle.std.specs.Prelude.{◌≡◌, length, IfOk};
ghost use Rattle.hog_value.specs.Values.{NamesBelow};
ghost use Rattle.hog_meaning.specs.Operators.{operated};

use crate::inside::is_in;
use crate::numbers::{difference, product, sum};
use crate::order::compare;
use hog_tree::tree::BinaryOp;
use hog_value::{Heap, Kind, Value};

/// An operator on its left and its right operand. Takes no memory.
#[tactic(auto, unfolding(hog_meaning::specs::Operators::operated))]
pub fn operate(op: BinaryOp, heap: &Heap, x: Value, y: Value) -> Result<Value, Kind>
    requires left { NamesBelow (length heap.now) x }
    requires right { NamesBelow (length heap.now) y }
    ensures value { result ≡ operated op heap.now x y }
    ensures names { IfOk result (NamesBelow (length heap.now)) }
{
    match op {
        BinaryOp::Or => Ok(Value::Bool(heap.truth(x) || heap.truth(y))),
        BinaryOp::And => Ok(Value::Bool(heap.truth(x) && heap.truth(y))),
        BinaryOp::Equal => Ok(Value::Bool(heap.same(x, y))),
        BinaryOp::NotEqual => Ok(Value::Bool(!heap.same(x, y))),
        BinaryOp::Less => compare(BinaryOp::Less, heap, x, y),
        BinaryOp::LessEqual => compare(BinaryOp::LessEqual, heap, x, y),
        BinaryOp::Greater => compare(BinaryOp::Greater, heap, x, y),
        BinaryOp::GreaterEqual => compare(BinaryOp::GreaterEqual, heap, x, y),
        BinaryOp::IsIn => Ok(Value::Bool(is_in(heap, x, y)?)),
        BinaryOp::NotIn => Ok(Value::Bool(!is_in(heap, x, y)?)),
        BinaryOp::Plus => sum(x, y),
        BinaryOp::Minus => difference(x, y),
        BinaryOp::Times => product(x, y),
    }
}
