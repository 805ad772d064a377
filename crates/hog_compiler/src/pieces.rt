//! The pieces of which code is made.

ghost use Rattle.std.specs.Prelude.{◌≡◌, ◌+◌, ◌≤◌, pos, neg_ℤ, true, None, IfOk, OnOk};
ghost use Rattle.std.specs.Option.{option_copied};
ghost use Rattle.hog_ops.specs.Plain.{NoOp};
ghost use Rattle.hog_ops.specs.View.{op_of};
ghost use Rattle.hog_ops.specs.Valid.{allowed, lost, height};
ghost use Rattle.hog_tree.specs.View.{words_of, exp_of};
ghost use Rattle.hog_captures.specs.Frames.{find_local, find_up};
ghost use Rattle.hog_compiler.specs.Code.{called_native};
ghost use Rattle.hog_compiler.specs.AddsCode.{AddsCode};
ghost use Rattle.hog_compiler.specs.Pieces.{truth_op, read_code, write_op, operator_op, is_left_first, coalesce_code, native_code, return_null, fun_code, lambda_name, if_code, if_else_code, loop_code, try_code};

use crate::draft::Draft;
use hog_captures::Frame;
use hog_ops::{CallableOp, Captures, Op};
use hog_tree::tree::{BinaryOp, Expr, Names};
use hog_value::{HogText, Native};
use std::alloc::{AllocError, Global};
use std::convert::AsStr;

// A distance over so many elements.
fn over(elements: u32, more: u32) -> i64
    ensures { result ≡ pos (elements + more) }
{
    i64::from(elements) + i64::from(more)
}

// The distance back over a loop.
fn back(condition: u32, body: u32) -> i64
    ensures { result ≡ neg_ℤ (pos (condition + body + 4)) }
{
    -(i64::from(condition) + i64::from(body) + 4)
}

/// A truth value.
pub fn truth(b: bool) -> Op
    ensures { op_of result ≡ truth_op b }
{
    if b { Op::PushTrue } else { Op::PushFalse }
}

/// The operation of an operator.
pub fn operation(op: BinaryOp) -> Op
    ensures { op_of result ≡ operator_op op }
{
    match op {
        BinaryOp::Or => Op::Or(2),
        BinaryOp::And => Op::And(2),
        BinaryOp::Equal => Op::Eq,
        BinaryOp::NotEqual => Op::NotEq,
        BinaryOp::Less => Op::Lt,
        BinaryOp::LessEqual => Op::LtEq,
        BinaryOp::Greater => Op::Gt,
        BinaryOp::GreaterEqual => Op::GtEq,
        BinaryOp::IsIn => Op::IsIn,
        BinaryOp::NotIn => Op::NotIn,
        BinaryOp::Plus => Op::Plus,
        BinaryOp::Minus => Op::Minus,
        BinaryOp::Times => Op::Multiply,
    }
}

/// Whether the left operand comes first.
pub fn is_left_first(op: BinaryOp) -> bool
    ensures { result ≡ is_left_first op }
{
    matches!(op, BinaryOp::Or | BinaryOp::And)
}

/// A count as operations have it. As many as 2^32 are answered as want of memory.
pub fn counted(len: usize) -> Result<u32, AllocError>
    ensures { IfOk result (λ n. n ≡ len) }
{
    match u32::try_from(len) {
        Ok(count) => Ok(count),
        Err(_) => Err(AllocError),
    }
}

/// The word of a native that is called: one that the frame doesn't know.
pub fn native_called<'e>(frame: &Frame, callee: &'e Expr) -> Option<&'e HogText>
    ensures { option_copied result ≡ called_native frame.now (exp_of callee.now) }
{
    match callee {
        Expr::Name(name) if !frame.knows(&name.word) => Some(&name.word),
        _ => None,
    }
}

/// The name of functions that have none.
pub fn lambda_name(alloc: Global) -> Result<HogText, AllocError>
    ensures { IfOk result (λ name. name ≡ lambda_name) }
{
    Ok(HogText::from_string(String::from_str(alloc, "lambda")?))
}

/// The value of a word.
#[tactic(auto, using(hog_ops::proofs::Join::join_assoc, hog_ops::proofs::Join::join_none))]
pub fn read(out: &mut Draft, frame: &Frame, word: &HogText) -> Result<(), AllocError>
    ensures { OnOk result (AddsCode out.old out.new
        (read_code (find_local frame.now.locals word.now) (find_up frame.now.ups word.now) word.now)) }
{
    if let Some(index) = frame.local(word) {
        return out.push(Op::GetLocal(index));
    }
    if let Some(index) = frame.up(word) {
        return out.push(Op::GetUpvalue(index));
    }
    out.push(Op::Str(word.copy()?))?;
    out.push(Op::GetGlobal(1))
}

/// The operation that gives a word a new value.
pub fn write(frame: &Frame, word: &HogText) -> Op
    ensures { op_of result ≡ write_op (find_local frame.now.locals word.now) (find_up frame.now.ups word.now) }
{
    if let Some(index) = frame.local(word) {
        return Op::SetLocal(index);
    }
    match frame.up(word) {
        Some(index) => Op::SetUpvalue(index),
        None => Op::Pop,
    }
}

#[tactic(auto, using(hog_ops::proofs::Join::join_assoc, hog_ops::proofs::Join::join_none))]
impl Draft {
    /// The second, where what is written gives null.
    pub fn coalesce(&mut self, second: Draft) -> Result<(), AllocError>
        ensures { OnOk result (AddsCode self.old self.new (coalesce_code NoOp second)) }
    {
        self.push(Op::JumpIfStackNotNull(over(second.span(), 1)))?;
        self.push(Op::Pop)?;
        self.append(second)
    }

    /// A body, where the condition that is written holds.
    pub fn when(&mut self, body: Draft) -> Result<(), AllocError>
        ensures { OnOk result (AddsCode self.old self.new (if_code NoOp body)) }
    {
        self.push(Op::JumpIfFalse(over(body.span(), 0)))?;
        self.append(body)
    }

    /// A body where the condition that is written holds, else another.
    pub fn when_else(&mut self, body: Draft, other: Draft) -> Result<(), AllocError>
        ensures { OnOk result (AddsCode self.old self.new (if_else_code NoOp body other)) }
    {
        self.push(Op::JumpIfFalse(over(body.span(), 2)))?;
        self.append(body)?;
        self.push(Op::Jump(over(other.span(), 0)))?;
        self.append(other)
    }

    /// A body as long as a condition holds.
    pub fn repeat(&mut self, condition: Draft, body: Draft) -> Result<(), AllocError>
        ensures { OnOk result (AddsCode self.old self.new (loop_code condition body)) }
    {
        let ahead = over(body.span(), 2);
        let behind = back(condition.span(), body.span());
        self.append(condition)?;
        self.push(Op::JumpIfFalse(ahead))?;
        self.append(body)?;
        self.push(Op::Jump(behind))
    }

    /// A body, and what catches its throws.
    pub fn attempt(&mut self, body: Draft, handler: Draft) -> Result<(), AllocError>
        ensures { OnOk result (AddsCode self.old self.new (try_code body handler)) }
    {
        self.push(Op::Try(over(body.span(), 3)))?;
        self.append(body)?;
        self.push(Op::PopTry)?;
        self.push(Op::Jump(over(handler.span(), 0)))?;
        self.append(handler)
    }

    /// The call of a native, after its arguments.
    pub fn call_native(&mut self, native: Option<Native>, count: u32) -> Result<(), AllocError>
        ensures { OnOk result (AddsCode self.old self.new (native_code native count)) }
    {
        match native {
            Some(native) if native.takes(count) => self.push(Op::CallGlobal(native, count)),
            _ => Ok(()),
        }
    }

    /// A function, made.
    pub fn function(
        &mut self,
        name: HogText,
        params: &Names,
        captures: Captures,
        body: Draft,
    ) -> Result<(), AllocError>
        requires operands { allowed body ≡ true }
        requires distances { lost 0 body ≡ None }
        requires nesting { height body ≤ 1000 }
        ensures { OnOk result (AddsCode self.old self.new (fun_code name (words_of params.now) captures body)) }
    {
        let params = counted(params.items().len())?;
        let body = body.into_code();
        self.push(Op::Callable(CallableOp {
            name,
            params,
            body,
            captures,
        }))
    }

    /// The return of null.
    pub fn return_null(&mut self) -> Result<(), AllocError>
        ensures { OnOk result (AddsCode self.old self.new return_null) }
    {
        self.push(Op::PushNull)?;
        self.push(Op::Return)
    }
}
