//! Functions: making them, calling them, coming back, and their captured variables.

ghost use Rattle.std.specs.Prelude.{◌≡◌, ℕ, [], Some, length, OnOk, slice_get, option_and_then};
ghost use Rattle.hog_value.specs.declared.trace.End.TheVariants.{Done as EndsDone};
ghost use Rattle.hog_value.specs.Values.{NamesBelow};
ghost use Rattle.hog_ops.specs.Plain as o;
ghost use Rattle.vm_course.specs.State.{function_at};
ghost use Rattle.vm_course.specs.Stack.{captured_by, captured_in, upvalue_of, upvalue_value, write_numbered, cut_to};
ghost use Rattle.vm_course.specs.Throws.{ends_shown};
ghost use Rattle.vm_course.specs.Step.{give_back};
ghost use Rattle.vm_frames.specs.Parts.{innermost, others_of, ClosedBelow};
ghost use Rattle.vm_operations.specs.Here.{here_of, Does};
ghost use Rattle.vm_frames.specs.Views.{upvalue_of as view_of};

use crate::state::State;
use hog_value::{Cell, End, Heap, Value};
use std::alloc::{AllocError, Global};
use vm_frames::upvalues::Upvalue;

/// The numbers of the upvalues that a frame's function has captured. Takes no memory.
pub(crate) fn captured_by(heap: &Heap, function: Option<u32>) -> &[u32]
    ensures { result.now ≡ captured_in (option_and_then (function_at heap.entry.now) function) }
{
    let Some(n) = function else {
        return &[];
    };
    if n as usize >= heap.len() {
        return &[];
    }
    match heap.get(n) {
        Cell::Fun(f) => f.captured.items(),
        _ => &[],
    }
}

impl State {
    /// The number of the upvalue with an index among those that the innermost frame's function has captured. Takes no
    /// memory.
    fn captured(&self, index: u32) -> Option<u32>
        ensures { result ≡ slice_get (captured_by self.now (innermost self.now.frames)) index }
    {
        let frame = self.frame;
        let function = frame.function;
        captured_by(&self.heap, function)
            .get(index as usize)
            .copied()
    }

    /// GET_UPVALUE
    pub(crate) fn get_upvalue(&mut self, behind: u32, index: u32) -> Result<(), AllocError>
        ensures { OnOk result (Does (o.GetUpvalue index) behind self.old self.new) }
    {
        let v = self.upvalue(index);
        self.push_value(behind, v)
    }

    /// The value of an upvalue; one that isn't there is null. Takes no memory.
    fn upvalue(&self, index: u32) -> Value
        ensures value { result ≡ upvalue_value self.now.stack (upvalue_of self.now (innermost self.now.frames) index) }
        ensures names { NamesBelow (length self.now.heap) result }
    {
        let Some(number) = self.captured(index) else {
            return Value::Null;
        };
        match self.upvalues.get(number) {
            Some(upvalue) => self.read(upvalue),
            None => Value::Null,
        }
    }

    /// What an upvalue holds. Takes no memory.
    fn read(&self, upvalue: Upvalue) -> Value
        requires { ClosedBelow (length self.now.heap) (view_of upvalue) }
        ensures value { result ≡ upvalue_value self.now.stack (Some (view_of upvalue)) }
        ensures names { NamesBelow (length self.now.heap) result }
    {
        match upvalue {
            Upvalue::Opened(place) => self.stack.at(place as usize).unwrap_or(Value::Null),
            Upvalue::Closed(v) => v,
        }
    }

    /// SET_UPVALUE
    pub(crate) fn set_upvalue(&mut self, behind: u32, index: u32)
        ensures { Does (o.SetUpvalue index) behind self.old self.new }
    {
        let floor = self.floor();
        let all = self.len();
        let (v, rest) = self.top(floor, all);
        self.go_on(behind, rest);
        match self.captured(index) {
            Some(number) => self.write(number, v),
            None => (),
        }
    }

    /// Writes to the upvalue with a number; where there is none nothing changes. Takes no memory.
    fn write(&mut self, number: u32, v: Value)
        requires { NamesBelow (length self.old.heap) v }
        ensures { self.new ≡ write_numbered (Some number) v self.old }
    {
        match self.upvalues.get(number) {
            Some(Upvalue::Opened(place)) => self.set_value(place as usize, v),
            Some(Upvalue::Closed(_)) => self.upvalues.set(number, v),
            None => (),
        }
    }

    /// RETURN, and the ends of bodies: a frame gives its value to the one around it.
    pub(crate) fn give_back(&mut self, alloc: Global, v: Value) -> Result<(), AllocError>
        requires { NamesBelow (length self.old.heap) v }
        ensures { (behind : ℕ) → OnOk result (self.new ≡ give_back v (here_of behind self.old) (others_of self.old.frames) self.old) }
    {
        if self.around.len() == 0 {
            return self.finish(alloc, v);
        }
        let frames = self.around.len() + 1;
        let height = self.base().min(self.len());
        self.cut(height);
        self.throws.keep_around(frames);
        self.land(frames - 1);
        self.push(v)
    }

    /// The program's frame gives its value: the run ends.
    fn finish(&mut self, alloc: Global, v: Value) -> Result<(), AllocError>
        requires { NamesBelow (length self.old.heap) v }
        ensures { OnOk result (self.new ≡ ends_shown EndsDone v self.old (record (cut_to [] self.old) { throws = [] })) }
    {
        match self.shown_text(alloc, v)? {
            Some(text) => {
                self.cut(0);
                self.throws.clear();
                self.meter.units += text.bytes().len() as u32;
                self.end(End::Done(text));
            }
            None => self.end(End::MemorySpent),
        }
        Ok(())
    }

    /// RETURN
    pub(crate) fn give(&mut self, alloc: Global, behind: u32) -> Result<(), AllocError>
        ensures { OnOk result (Does o.Return behind self.old self.new) }
    {
        let floor = self.floor();
        let all = self.len();
        let (v, _) = self.top(floor, all);
        self.give_back(alloc, v)
    }
}
