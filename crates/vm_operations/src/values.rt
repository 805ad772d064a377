//! Operations on values: constants, operators, locals, properties, globals, arrays and dictionaries.

ghost use Rattle.std.specs.Prelude.{◌≡◌, ◌<◌, ◌≤◌, ◌∷◌, ℕ, List, length, IfOk, OnOk};
ghost use Rattle.hog_value.specs.Values.{Val, NamesBelow};
ghost use Rattle.hog_ops.specs.Plain as o;
ghost use Rattle.hog_meaning.specs.World.{Fixed};
ghost use Rattle.vm_course.specs.Stack.{keep};
ghost use Rattle.vm_course.specs.State.{Slot};
ghost use Rattle.vm_course.specs.Throws.{on_result};
ghost use Rattle.vm_course.specs.Step.{on_and_push, binary, act};
ghost use Rattle.vm_operations.specs.Here.{here_of, Does, PushesText, IsStopped};

use crate::state::State;
use hog_operators::{access, assign, make_dictionary, operate, read_key};
use hog_tree::tree::BinaryOp;
use hog_value::{End, HogText, Kind, SetStop, Value};
use std::alloc::{AllocError, Global};

impl State {
    /// Puts a value on the stack, and goes on.
    #[inline(always)]
    pub(crate) fn push_value(&mut self, behind: u32, v: Value) -> Result<(), AllocError>
        requires { NamesBelow (length self.old.heap) v }
        ensures { OnOk result (self.new ≡ on_and_push (here_of behind self.old) self.old.stack v self.old) }
    {
        let all = self.len();
        self.go_on_with(behind, all, v)
    }

    /// STRING, where the text is the literal with a number.
    pub(crate) fn string(
        &mut self,
        behind: u32,
        text: &HogText,
        cell: u32,
    ) -> Result<(), AllocError>
        requires { cell < length self.old.heap }
        ensures { OnOk result (PushesText text.now cell behind self.old self.new) }
    {
        self.push_value(behind, Value::Ref(cell))
    }

    /// Goes on with a result on what is left of the stack, or throws its kind.
    #[inline(always)]
    pub(crate) fn settle(
        &mut self,
        alloc: Global,
        behind: u32,
        rest: u32,
        v: Result<Value, Kind>,
    ) -> Result<(), AllocError>
        requires rest { rest ≤ length self.old.stack }
        requires names { IfOk v (NamesBelow (length self.old.heap)) }
        ensures { OnOk result (self.new ≡ on_result v (on_and_push (here_of behind self.old) (keep rest self.old.stack)) self.old) }
    {
        match v {
            Ok(v) => self.go_on_with(behind, rest, v),
            Err(kind) => self.throw_kind(alloc, kind),
        }
    }

    /// Throws a kind, or ends where memory is spent, as an operation on the heap has stopped.
    pub(crate) fn stop(&mut self, alloc: Global, why: SetStop) -> Result<(), AllocError>
        ensures { OnOk result (IsStopped why self.old self.new) }
    {
        match why {
            SetStop::Thrown(kind) => self.throw_kind(alloc, kind),
            SetStop::UnitsSpent => {
                self.end(End::MemorySpent);
                Ok(())
            }
            SetStop::OutOfMemory => Err(AllocError),
        }
    }

    /// An operator on the two topmost values, of which the top is its left operand.
    pub(crate) fn binary(
        &mut self,
        alloc: Global,
        behind: u32,
        op: BinaryOp,
    ) -> Result<(), AllocError>
        ensures { OnOk result (self.new ≡ binary op (here_of behind self.old) self.old) }
    {
        let floor = self.floor();
        let all = self.len();
        let (x, below) = self.top(floor, all);
        let (y, rest) = self.top(floor, below);
        let v = operate(op, &self.heap, x, y);
        self.settle(alloc, behind, rest, v)
    }

    /// NOT
    pub(crate) fn not(&mut self, behind: u32) -> Result<(), AllocError>
        ensures { OnOk result (Does o.Not behind self.old self.new) }
    {
        let floor = self.floor();
        let all = self.len();
        let (v, rest) = self.top(floor, all);
        let truth = self.heap.truth(v);
        self.go_on_with(behind, rest, Value::Bool(!truth))
    }

    /// POP, CLOSE_UPVALUE
    pub(crate) fn pop(&mut self, behind: u32)
        ensures pop { Does o.Pop behind self.old self.new }
        ensures close { Does o.CloseUpvalue behind self.old self.new }
    {
        let floor = self.floor();
        let all = self.len();
        let (_, rest) = self.top(floor, all);
        self.go_on(behind, rest);
    }

    /// GET_LOCAL
    pub(crate) fn get_local(&mut self, behind: u32, index: u32) -> Result<(), AllocError>
        ensures { OnOk result (Does (o.GetLocal index) behind self.old self.new) }
    {
        let v = self.local(index);
        self.push_value(behind, v)
    }

    /// SET_LOCAL
    pub(crate) fn set_local(&mut self, behind: u32, index: u32)
        ensures { Does (o.SetLocal index) behind self.old self.new }
    {
        let floor = self.floor();
        let all = self.len();
        let (v, rest) = self.top(floor, all);
        let place = self.base() as usize + index as usize;
        self.go_on(behind, rest);
        self.set_value(place, v);
    }

    /// GET_PROPERTY
    pub(crate) fn get_property(&mut self, alloc: Global, behind: u32) -> Result<(), AllocError>
        ensures { OnOk result (Does o.GetProperty behind self.old self.new) }
    {
        let floor = self.floor();
        let all = self.len();
        let (key, below) = self.top(floor, all);
        let (base, rest) = self.top(floor, below);
        let v = access(&self.heap, base, key);
        self.settle(alloc, behind, rest, v)
    }

    /// GET_PROPERTY_NULLISH
    pub(crate) fn get_property_nullish(
        &mut self,
        alloc: Global,
        behind: u32,
    ) -> Result<(), AllocError>
        ensures { OnOk result (Does o.GetPropertyNullish behind self.old self.new) }
    {
        let floor = self.floor();
        let all = self.len();
        let (key, below) = self.top(floor, all);
        let (base, rest) = self.top(floor, below);
        match base {
            Value::Null => self.go_on_with(behind, rest, Value::Null),
            _ => {
                let v = access(&self.heap, base, key);
                self.settle(alloc, behind, rest, v)
            }
        }
    }

    /// SET_PROPERTY
    pub(crate) fn set_property(&mut self, alloc: Global, behind: u32) -> Result<(), AllocError>
        ensures { OnOk result (Does o.SetProperty behind self.old self.new) }
    {
        let floor = self.floor();
        let all = self.len();
        let (v, below) = self.top(floor, all);
        let (key, under) = self.top(floor, below);
        let (base, rest) = self.top(floor, under);
        let mut meter = self.meter;
        let done = assign(&mut self.heap, base, key, v, &mut meter);
        self.meter = meter;
        match done {
            Ok(()) => {
                self.go_on(behind, rest);
                Ok(())
            }
            Err(why) => self.stop(alloc, why),
        }
    }
}
