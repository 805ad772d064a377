//! Calls of functions.

ghost use Rattle.std.specs.Prelude.{◌≡◌, ◌<◌, ◌≤◌, ◌-◌, ◌++◌, ◌∷◌, List, Some, length, map, replicate, nat_lt, if◌then◌else◌, IfOk, OnOk};
ghost use Rattle.hog_value.specs.declared.trace.End.TheVariants.{TooDeep as EndsTooDeep, TurnsSpent as EndsTurnsSpent};
ghost use Rattle.hog_value.specs.declared.value.Value.TheVariants.{Null as NoValue};
ghost use Rattle.hog_value.specs.declared.cell.FunCell.{FunCell as FunctionCell};
ghost use Rattle.hog_value.specs.Meters.{max_turns, max_depth};
ghost use Rattle.hog_value.specs.Values.{Val, NamesBelow};
ghost use Rattle.hog_meaning.specs.World.{Fixed};
ghost use Rattle.hog_ops.specs.Plain as o;
ghost use Rattle.vm_course.specs.Stack.{keep, close};
ghost use Rattle.vm_course.specs.Throws.{ends};
ghost use Rattle.vm_course.specs.Step.{act, call_function, enter, in_place, with_arguments};
ghost use Rattle.vm_frames.specs.Parts.{others_of};
ghost use Rattle.vm_operations.specs.Here.{here_of};
ghost use Rattle.vm_operations.specs.Calls.{callee_in};

use crate::state::State;
use hog_value::meter::{MAX_DEPTH, MAX_TURNS};
use hog_value::{Cell, End, Kind, Value};
use std::alloc::{AllocError, Global};
use vm_frames::frames::Frame;
use vm_frames::table::Table;

/// A function that is called: its cell, and the place where its body begins.
#[derive(Clone, Copy)]
pub(crate) struct Callee {
    pub(crate) cell: u32,
    pub(crate) place: u32,
}

/// How much of a stack of `len` values stays in its place in a call with so many arguments: all of it where they are there,
/// and what is under the operands where some are missing. Takes no memory.
fn height_in_place(floor: u32, n: u32, len: u32) -> u32
    ensures { (stack : List Val) → length stack ≡ len → result ≡ length (in_place floor n stack) }
{
    if n <= len.saturating_sub(floor) {
        len
    } else {
        floor.min(len)
    }
}

impl State {
    /// The function that a value is, where it is one. Takes no memory.
    fn callee(&self, v: Value) -> Option<Callee>
        ensures { result ≡ callee_in self.now.heap v }
    {
        let Value::Ref(cell) = v else {
            return None;
        };
        if cell as usize >= self.heap.len() {
            return None;
        }
        match self.heap.get(cell) {
            Cell::Fun(f) => Some(Callee {
                cell,
                place: f.place,
            }),
            _ => None,
        }
    }

    /// CALL_LOCAL
    pub(crate) fn call_local(
        &mut self,
        alloc: Global,
        behind: u32,
        n: u32,
        table: &Table,
    ) -> Result<(), AllocError>
        ensures { (fixed : Fixed) → OnOk result (self.new ≡ act fixed table.now.slots (o.CallLocal n) (here_of behind self.old) self.old) }
    {
        let floor = self.floor();
        let all = self.len();
        let (v, rest) = self.top(floor, all);
        match self.callee(v) {
            Some(callee) => {
                let params = table.params(callee.place).unwrap_or(0);
                self.call_function(alloc, behind, n, callee, params, rest)
            }
            None => self.throw_kind(alloc, Kind::TypeError),
        }
    }

    /// Calls a function of so many parameters with so many arguments, where so much of the stack is left under its value.
    fn call_function(
        &mut self,
        alloc: Global,
        behind: u32,
        n: u32,
        callee: Callee,
        params: u32,
        rest: u32,
    ) -> Result<(), AllocError>
        requires { rest ≤ length self.old.stack }
        ensures { (f : FunctionCell) → f.place ≡ callee.place
            → OnOk result (self.new ≡ call_function (here_of behind self.old) n callee.cell f params (keep rest self.old.stack) self.old) }
    {
        if params < n {
            return self.throw_kind(alloc, Kind::ArgumentError);
        }
        if self.around.len() >= u32::from(MAX_DEPTH) {
            self.end_deep();
            return Ok(());
        }
        if !self.spend_turn() {
            self.end(End::TurnsSpent);
            return Ok(());
        }
        self.enter(alloc, behind, n, callee, params, rest)
    }

    /// The run ends where a call would stand too deep. Takes no memory.
    fn end_deep(&mut self)
        ensures { self.new ≡ (if nat_lt self.old.turns max_turns then ends EndsTooDeep self.old else ends EndsTurnsSpent self.old) }
    {
        if self.meter.turns < MAX_TURNS {
            self.end(End::TooDeep);
        } else {
            self.end(End::TurnsSpent);
        }
    }

    /// Enters the body of a function of so many parameters with so many arguments, where so much of the stack is left
    /// under its value.
    fn enter(
        &mut self,
        alloc: Global,
        behind: u32,
        n: u32,
        callee: Callee,
        params: u32,
        rest: u32,
    ) -> Result<(), AllocError>
        requires rest { rest ≤ length self.old.stack }
        requires few { n ≤ params }
        requires depth { length (others_of self.old.frames) < max_depth }
        ensures { (f : FunctionCell) → f.place ≡ callee.place
            → OnOk result (self.new ≡ enter (here_of behind self.old) n callee.cell f params (keep rest self.old.stack) self.old) }
    {
        let floor = self.floor();
        self.cut_from(height_in_place(floor, n, rest), rest);
        self.go_to(behind);
        let base = self.take_arguments(alloc, floor, n, params)?;
        self.enter_frame(callee, base)
    }

    /// Cuts the stack to its lowest `len` values, and closes the upvalues of those at a height or above it. Takes no memory.
    fn cut_from(&mut self, height: u32, len: u32)
        ensures { self.new ≡ record self.old { stack = keep len self.old.stack; upvalues = map (close height self.old.stack) self.old.upvalues } }
    {
        let State {
            stack,
            upvalues,
            ..
        } = self;
        upvalues.close(height, stack);
        stack.keep(len);
    }

    /// The arguments of a call become the first locals of its frame: of so many parameters those without one are null. Where
    /// the locals begin.
    fn take_arguments(
        &mut self,
        alloc: Global,
        floor: u32,
        n: u32,
        params: u32,
    ) -> Result<u32, AllocError>
        requires { n ≤ params }
        ensures stack { OnOk result (self.new ≡ record self.old { stack = replicate (params - n) NoValue ++ with_arguments floor n self.old.stack }) }
        ensures base { IfOk result (λ base. base ≡ length (with_arguments floor n self.old.stack) - n) }
    {
        self.stack.fill(alloc, floor, n)?;
        let base = self.stack.len().saturating_sub(n);
        self.stack.push_nulls(params - n)?;
        Ok(base)
    }

    /// A function's frame becomes the innermost.
    fn enter_frame(&mut self, callee: Callee, base: u32) -> Result<(), AllocError>
        requires { length (others_of self.old.frames) < max_depth }
        ensures { OnOk result (self.new ≡ record self.old {
          frames = record { place = callee.place; base = base; function = Some callee.cell } ∷ self.old.frames;
        }) }
    {
        let frame = self.frame;
        self.around.push(frame)?;
        self.frame = Frame {
            place: callee.place,
            base,
            function: Some(callee.cell),
        };
        Ok(())
    }
}
