//! Writing the text of a code.

ghost use Rattle.std.specs.Prelude.{◌≡◌, ◌<◌, ◌^◌, ℕ, [], ◌∷◌, ◌++◌, length, map, IfOk, OnOk, Ok};
ghost use Rattle.serde_json.specs.Data.{unsigned, number, string, boolean, array};
ghost use Rattle.serde_json.specs.Find.{of_integer};
ghost use Rattle.serde_json.specs.View.{view, items_of};
ghost use Rattle.hog_ops.specs.Elements.{elements, op_elements, capture_elements, closure_elements};
ghost use Rattle.hog_ops.specs.Ranges.{IsU32, CapturesFit, OpFits, OpsFit};
ghost use Rattle.hog_ops.specs.Table.{size};
ghost use Rattle.hog_ops.specs.Valid.{IsCode, op_height};
ghost use Rattle.hog_ops.specs.View.{op_of, ops_of};
ghost use Rattle.bytecode_front.specs.Elements.{elem_data};
ghost use Rattle.bytecode_json.specs.Text.{code_data, code_text, decode_of};
ghost use Rattle.bytecode_front.specs.Views.{views};
ghost use Rattle.bytecode_json.specs.Written.{head_elements};

use hog_ops::{CallableOp, Capture, Code, Op};
use hog_value::HogText;
use serde_json::{Number, Value};
use std::alloc::{AllocError, Global};
use std::convert::AsStr;

fn count(n: u32) -> Value
    ensures { view result ≡ number (unsigned n) }
{
    Value::Number(Number::from(n))
}

fn whole(n: i64) -> Value
    ensures { view result ≡ number (of_integer n) }
{
    Value::Number(Number::from(n))
}

fn text(alloc: Global, s: &str) -> Result<Value, AllocError>
    ensures { IfOk result (λ v. view v ≡ string s.now) }
{
    Value::try_from_str(alloc, s)
}

/// Writes an operation that has no body.
fn write_simple(alloc: Global, op: &Op, items: &mut Vec<Value>) -> Result<(), AllocError>
    requires { op_height (op_of op.now) ≡ 0 }
    ensures written { OnOk result
        (views items.new.items ≡ views items.old.items ++ map elem_data (op_elements (op_of op.now))) }
    ensures fits { OnOk result (OpFits (op_of op.now)) }
{
    items.push(count(u32::from(op.number())))?;
    match op {
        Op::GetGlobal(n)
        | Op::And(n)
        | Op::Or(n)
        | Op::GetLocal(n)
        | Op::SetLocal(n)
        | Op::Dict(n)
        | Op::Array(n)
        | Op::CallLocal(n)
        | Op::GetUpvalue(n)
        | Op::SetUpvalue(n) => items.push(count(*n))?,
        Op::Integer(n)
        | Op::Jump(n)
        | Op::JumpIfFalse(n)
        | Op::JumpIfStackNotNull(n)
        | Op::Try(n) => items.push(whole(*n))?,
        Op::CallGlobal(native, n) => {
            items.push(text(alloc, native.name())?)?;
            items.push(count(*n))?;
        }
        Op::Str(t) => items.push(text(alloc, t.as_str())?)?,
        _ => {}
    }
    Ok(())
}

fn write_capture(capture: &Capture, items: &mut Vec<Value>) -> Result<(), AllocError>
    ensures written { OnOk result
        (views items.new.items ≡ views items.old.items ++ map elem_data (capture_elements (capture.now ∷ []))) }
    ensures fits { OnOk result (IsU32 capture.now.index) }
{
    items.push(Value::Bool(capture.local))?;
    items.push(count(capture.index))?;
    Ok(())
}

fn write_captures(captures: &[Capture], items: &mut Vec<Value>) -> Result<(), AllocError>
    ensures written { OnOk result
        (views items.new.items ≡ views items.old.items ++ map elem_data (capture_elements captures.now)) }
    ensures fits { OnOk result (CapturesFit captures.now) }
{
    for capture in captures {
        write_capture(capture, items)?;
    }
    Ok(())
}

/// Writes what stands before the body of a function.
fn write_head(alloc: Global, c: &CallableOp, items: &mut Vec<Value>) -> Result<(), AllocError>
    requires { length c.now.captures < 2 ^ 32 }
    ensures written { OnOk result
        (views items.new.items ≡ views items.old.items ++ map elem_data (head_elements c.now)) }
    ensures fits { OnOk result (c.now.params < 2 ^ 32) }
{
    items.push(count(52))?;
    items.push(text(alloc, c.name.as_str())?)?;
    items.push(count(c.params))?;
    items.push(count(c.captures.items().len() as u32))?;
    items.push(count(c.body.elements()))?;
    Ok(())
}

/// Writes what stands behind the body of a function.
fn write_closure(captures: &[Capture], items: &mut Vec<Value>) -> Result<(), AllocError>
    requires { length captures.now < 2 ^ 32 }
    ensures written { OnOk result
        (views items.new.items ≡ views items.old.items ++ map elem_data (closure_elements captures.now)) }
    ensures fits { OnOk result (CapturesFit captures.now) }
{
    items.push(count(53))?;
    items.push(count(captures.len() as u32))?;
    write_captures(captures, items)
}

/// Writes an operation.
#[cycle(write)]
fn write_op(alloc: Global, op: &Op, items: &mut Vec<Value>) -> Result<(), AllocError>
    requires { size (op_of op.now) < 2 ^ 32 }
    ensures written { OnOk result
        (views items.new.items ≡ views items.old.items ++ map elem_data (op_elements (op_of op.now))) }
    ensures fits { OnOk result (OpFits (op_of op.now)) }
{
    match op {
        Op::Callable(c) => {
            write_head(alloc, c, items)?;
            write_code(alloc, &c.body, items)?;
            write_closure(c.captures.items(), items)
        }
        _ => write_simple(alloc, op, items),
    }
}

/// Writes the operations of a code.
#[cycle(write)]
fn write_code(alloc: Global, code: &Code, items: &mut Vec<Value>) -> Result<(), AllocError>
    ensures written { OnOk result
        (views items.new.items ≡ views items.old.items ++ map elem_data (elements code.now)) }
    ensures fits { OnOk result (OpsFit code.now) }
{
    for op in code.ops() {
        write_op(alloc, op, items)?;
    }
    Ok(())
}

fn array(items: Vec<Value>) -> Value
    ensures { view result ≡ array (items_of (views items.items)) }
{
    Value::Array(items)
}

/// The array of a code.
fn code_value(alloc: Global, c: &Code) -> Result<Value, AllocError>
    ensures data { IfOk result (λ v. view v ≡ code_data c.now) }
    ensures fits { IfOk result (λ _. OpsFit c.now) }
{
    let mut items = Vec::new(alloc);
    items.push(text(alloc, "_H")?)?;
    items.push(count(1))?;
    write_code(alloc, c, &mut items)?;
    Ok(array(items))
}

/// The text of a code: the compact JSON array of the header and the elements.
pub fn encode(alloc: Global, c: &Code) -> Result<HogText, AllocError>
    ensures text { IfOk result (λ t. t ≡ code_text c.now) }
    ensures decodes { IfOk result (λ t. decode_of t ≡ Ok c.now) }
{
    let _ops = c.ops();
    let text = code_value(alloc, c)?.to_string(alloc)?;
    Ok(HogText::from_string(text))
}
