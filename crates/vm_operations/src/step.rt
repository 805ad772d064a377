//! One operation of the machine.

ghost use Rattle.std.specs.Prelude.{◌≡◌, ◌<◌, ◌≤◌, ℕ, List, length, true, IsTrue, is_some, OnOk};
ghost use Rattle.hog_ops.specs.Plain.{Str};
ghost use Rattle.hog_ops.specs.Table.{row};
ghost use Rattle.hog_ops.specs.View.{op_of};
ghost use Rattle.hog_meaning.specs.Meaning.{place_in};
ghost use Rattle.hog_meaning.specs.World.{Fixed};
ghost use Rattle.vm_frames.specs.Reading.{LeadsNear};
ghost use Rattle.vm_course.specs.State.{Running};
ghost use Rattle.vm_course.specs.Step.{act, step};
ghost use Rattle.vm_operations.specs.Here.{here_of, Does};
ghost use Rattle.vm_operations.specs.Kinds.{operator_of, is_jump, is_variable, is_cell, is_call, IsNext, DoesIn};

use crate::state::State;
use hog_ops::Op;
use hog_tree::tree::BinaryOp;
use hog_value::Value;
use std::alloc::{AllocError, Global};
use vm_frames::{Begin, Table};

/// The operator of an operation on two values. Takes no memory.
fn operator_of(op: &Op) -> Option<BinaryOp>
    ensures { result ≡ operator_of (op_of op.now) }
{
    match op {
        Op::Plus => Some(BinaryOp::Plus),
        Op::Minus => Some(BinaryOp::Minus),
        Op::Multiply => Some(BinaryOp::Times),
        Op::Eq => Some(BinaryOp::Equal),
        Op::NotEq => Some(BinaryOp::NotEqual),
        Op::Gt => Some(BinaryOp::Greater),
        Op::GtEq => Some(BinaryOp::GreaterEqual),
        Op::Lt => Some(BinaryOp::Less),
        Op::LtEq => Some(BinaryOp::LessEqual),
        Op::IsIn => Some(BinaryOp::IsIn),
        Op::NotIn => Some(BinaryOp::NotIn),
        _ => None,
    }
}

#[tactic(auto, unfolding(vm_course::specs::Step::act))]
impl State {
    /// One operation more of a code, where the cell of the globals has a number. The end of a body, and that of the code,
    /// give back null.
    #[inline(always)]
    pub(crate) fn step(
        &mut self,
        alloc: Global,
        table: &Table,
        globals: u32,
    ) -> Result<(), AllocError>
        requires runs { self.old.mode ≡ Running }
        requires literals { length table.now.literals ≤ length self.old.heap }
        requires globals { globals < length self.old.heap }
        ensures { OnOk result (self.new
            ≡ step (record { literals = table.now.literals; globals = globals }) table.now.slots self.old) }
    {
        let frame = self.frame;
        match table.at(frame.place) {
            Some(begin) => self.perform(alloc, table, globals, begin),
            None => self.give_back(alloc, Value::Null),
        }
    }

    /// The operation that begins where the machine stands. The compilers are told to put the operations of most loops into the
    /// loop of a slice, and to leave the others calls.
    #[inline(always)]
    fn perform(
        &mut self,
        alloc: Global,
        table: &Table,
        globals: u32,
        begin: Begin,
    ) -> Result<(), AllocError>
        requires next { IsNext table.now (op_of begin.op.now) begin.behind self.old }
        requires literal { (t : List ℕ) → op_of begin.op.now ≡ Str t → begin.literal ≡ place_in table.now.literals t }
        requires known { (t : List ℕ) → op_of begin.op.now ≡ Str t → begin.literal < length self.old.heap }
        requires globals { globals < length self.old.heap }
        ensures { OnOk result (DoesIn table.now globals (op_of begin.entry.op.now) begin.entry.behind self.old self.new) }
    {
        let Begin {
            op,
            behind,
            literal,
        } = begin;
        match op {
            Op::PushTrue => self.push_value(behind, Value::Bool(true)),
            Op::PushFalse => self.push_value(behind, Value::Bool(false)),
            Op::PushNull => self.push_value(behind, Value::Null),
            Op::Integer(n) => self.push_value(behind, Value::Int(*n)),
            Op::Str(text) => self.string(behind, text, literal),
            Op::GetGlobal(n) => self.get_global(alloc, behind, globals, *n),
            Op::Not => self.not(behind),
            Op::And(n) => self.and(alloc, behind, *n),
            Op::Or(n) => self.or(alloc, behind, *n),
            Op::Pop
            | Op::GetLocal(_)
            | Op::SetLocal(_)
            | Op::GetUpvalue(_)
            | Op::SetUpvalue(_)
            | Op::CloseUpvalue => self.use_variable(behind, op),
            Op::Jump(_)
            | Op::JumpIfFalse(_)
            | Op::JumpIfStackNotNull(_)
            | Op::Try(_)
            | Op::PopTry => self.go_elsewhere(behind, op),
            Op::Dict(_)
            | Op::Array(_)
            | Op::GetProperty
            | Op::SetProperty
            | Op::GetPropertyNullish => self.use_cell(alloc, behind, op),
            Op::CallGlobal(_, _) | Op::CallLocal(_) | Op::Callable(_) | Op::Return | Op::Throw =>
                self.call(alloc, behind, op, table),
            _ => self.operate(alloc, behind, op),
        }
    }

    /// An operation on two values.
    fn operate(&mut self, alloc: Global, behind: u32, op: &Op) -> Result<(), AllocError>
        requires { IsTrue (is_some (operator_of (op_of op.now))) }
        ensures { OnOk result (Does (op_of op.now) behind self.old self.new) }
    {
        match operator_of(op) {
            Some(operator) => self.binary(alloc, behind, operator),
            None => unreachable!(),
        }
    }

    /// An operation on a variable, or one that takes a value off the stack.
    fn use_variable(&mut self, behind: u32, op: &Op) -> Result<(), AllocError>
        requires { is_variable (op_of op.now) ≡ true }
        ensures { OnOk result (Does (op_of op.now) behind self.old self.new) }
    {
        match op {
            Op::GetLocal(index) => return self.get_local(behind, *index),
            Op::GetUpvalue(index) => return self.get_upvalue(behind, *index),
            Op::SetLocal(index) => self.set_local(behind, *index),
            Op::SetUpvalue(index) => self.set_upvalue(behind, *index),
            Op::Pop | Op::CloseUpvalue => self.pop(behind),
            _ => unreachable!(),
        }
        Ok(())
    }

    /// An operation that says where the machine goes on, or where a throw lands.
    fn go_elsewhere(&mut self, behind: u32, op: &Op) -> Result<(), AllocError>
        requires jump { is_jump (op_of op.now) ≡ true }
        requires near { LeadsNear behind (row (op_of op.now)) }
        ensures { OnOk result (Does (op_of op.now) behind self.old self.new) }
    {
        match op {
            Op::Try(distance) => return self.open_try(behind, *distance),
            Op::Jump(distance) => self.jump(behind, *distance),
            Op::JumpIfFalse(distance) => self.jump_if_false(behind, *distance),
            Op::JumpIfStackNotNull(distance) => self.jump_if_stack_not_null(behind, *distance),
            Op::PopTry => self.pop_try(behind),
            _ => unreachable!(),
        }
        Ok(())
    }

    /// An operation on arrays, dictionaries and their properties.
    #[inline(never)]
    fn use_cell(&mut self, alloc: Global, behind: u32, op: &Op) -> Result<(), AllocError>
        requires { is_cell (op_of op.now) ≡ true }
        ensures { OnOk result (Does (op_of op.now) behind self.old self.new) }
    {
        match op {
            Op::Dict(n) => self.dict(alloc, behind, *n),
            Op::Array(n) => self.array(alloc, behind, *n),
            Op::GetProperty => self.get_property(alloc, behind),
            Op::SetProperty => self.set_property(alloc, behind),
            Op::GetPropertyNullish => self.get_property_nullish(alloc, behind),
            _ => unreachable!(),
        }
    }

    /// An operation that makes, calls or leaves a function, calls a native, or throws.
    #[inline(never)]
    fn call(&mut self, alloc: Global, behind: u32, op: &Op, table: &Table) -> Result<(), AllocError>
        requires call { is_call (op_of op.now) ≡ true }
        requires next { IsNext table.now (op_of op.now) behind self.old }
        ensures { (fixed : Fixed) → OnOk result (self.new ≡ act fixed table.now.slots (op_of op.now) (here_of behind self.old) self.old) }
    {
        match op {
            Op::CallGlobal(native, n) => self.call_global(alloc, behind, *native, *n),
            Op::CallLocal(n) => self.call_local(alloc, behind, *n, table),
            Op::Callable(function) => self.callable(alloc, behind, function.captures.items()),
            Op::Return => self.give(alloc, behind),
            Op::Throw => self.throw(alloc),
            _ => unreachable!(),
        }
    }
}
