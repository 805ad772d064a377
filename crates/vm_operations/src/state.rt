//! What a machine holds, and the steps of which its operations are made.

ghost use Rattle.std.specs.Prelude.{◌≡◌, ◌↔◌, ◌+◌, ◌≤◌, ◌<◌, [], length, reverse, All, IsTrue, IfOk, OnOk};
ghost use Rattle.std.specs.Bool.{OnTrue, OnFalse};
ghost use Rattle.hog_value.specs.Meters.{max_turns};
ghost use Rattle.hog_value.specs.Values.{Val, NamesBelow};
ghost use Rattle.hog_value.specs.Cells.{IsCovered};
ghost use Rattle.hog_value.specs.Operations.{Gives};
ghost use Rattle.vm_course.specs.Course.{started};
ghost use Rattle.vm_course.specs.Stack.{value_at, with_value, or_null, keep, cut_to, push, top_of, taken, floor_of};
ghost use Rattle.vm_course.specs.Throws.{ends, ends_shown, goto, throw_value, throw_kind};
ghost use Rattle.vm_course.specs.Step.{on_with, on_and_push};
ghost use Rattle.vm_frames.specs.Parts.{innermost, others_of};
ghost use Rattle.vm_operations.specs.Here.{here_of};

use hog_value::{End, Heap, Meter, Shown, Trace, Value};
use std::alloc::{AllocError, Global};
use std::marker::Model;
use vm_frames::frames::{Frame, Frames};
use vm_frames::stack::Stack;
use vm_frames::throws::Throws;
use vm_frames::upvalues::Upvalues;

/// What a machine holds between two operations. Contracts see it as the state of the definitions, without the replies that
/// are to come. It waits for a reply where `waiting` is set, and has ended where an end is shown.
#[derive(Drop)]
pub struct State {
    pub(crate) stack: Stack,
    pub(crate) frame: Frame,
    pub(crate) around: Frames,
    pub(crate) throws: Throws,
    pub(crate) upvalues: Upvalues,
    pub(crate) heap: Heap,
    pub(crate) meter: Meter,
    pub(crate) shown: Shown,
    pub(crate) waiting: bool,
}

impl Model for State {
    ghost use Rattle.vm_course.specs.State.{State as StateView};

    ghost Value = { StateView };

    ghost use Rattle.vm_operations.specs.Seen.{seen};
    ghost use Rattle.vm_operations.specs.Here.{IsFit};

    ghost view = { seen };

    ghost invariant = { λ m. IsFit (seen m) };
}

impl State {
    /// What a machine holds behind its first operation, which has made the cells of the heap for so many units. Takes no
    /// memory.
    pub fn new(alloc: Global, heap: Heap, meter: Meter) -> State
        requires covered { IsCovered heap meter.units }
        requires unspent { meter.turns ≡ 0 }
        ensures { (v : Val) → result ≡ started [] (Gives v heap meter.units) }
    {
        State {
            stack: Stack::new(alloc),
            frame: Frame {
                place: 2,
                base: 0,
                function: None,
            },
            around: Frames::new(alloc),
            throws: Throws::new(alloc),
            upvalues: Upvalues::new(alloc),
            heap,
            meter,
            shown: Shown {
                trace: Trace::new(Vec::new(alloc)),
                end: None,
            },
            waiting: false,
        }
    }

    /// How many values are on the stack. Takes no memory.
    pub(crate) fn len(&self) -> u32
        ensures { result ≡ length self.now.stack }
    {
        self.stack.len()
    }

    /// Where the locals of the innermost frame begin. Takes no memory.
    pub(crate) fn base(&self) -> u32
        ensures { result ≡ (innermost self.now.frames).base }
    {
        let frame = self.frame;
        frame.base
    }

    /// The height below which nothing is an operand. Takes no memory.
    pub(crate) fn floor(&self) -> u32
        ensures { result ≡ floor_of (innermost self.now.frames) self.now }
    {
        self.frame
            .base
            .max(self.throws.height(self.around.len() + 1))
    }

    /// The topmost operand of the lowest `len` values, and how many values stand under it. Takes no memory.
    #[inline(always)]
    pub(crate) fn top(&self, floor: u32, len: u32) -> (Value, u32)
        requires { len ≤ length self.now.stack }
        ensures is { top_of floor (keep len self.now.stack) ≡ (result.0, keep result.1 self.now.stack) }
        ensures within { result.1 ≤ len }
        ensures names { NamesBelow (length self.now.heap) result.0 }
    {
        self.stack.top(floor, len)
    }

    /// So many operands, the topmost first, and how many values stand under them.
    pub(crate) fn popped(&self, alloc: Global, n: u64) -> Result<(Vec<Value>, u32), AllocError>
        ensures is { IfOk result (λ r. taken (floor_of (innermost self.now.frames) self.now) n self.now.stack ≡ (r.0.items, keep r.1 self.now.stack)) }
        ensures count { IfOk result (λ r. length r.0.items ≡ n) }
        ensures within { IfOk result (λ r. r.1 ≤ length self.now.stack) }
        ensures names { IfOk result (λ r. All (NamesBelow (length self.now.heap)) r.0.items) }
    {
        let floor = self.floor();
        self.stack.popped(alloc, floor, n)
    }

    /// So many operands, the topmost last, and how many values stand under them.
    pub(crate) fn operands(&self, alloc: Global, n: u64) -> Result<(Vec<Value>, u32), AllocError>
        ensures is { IfOk result (λ r. taken (floor_of (innermost self.now.frames) self.now) n self.now.stack ≡ (reverse r.0.items, keep r.1 self.now.stack)) }
        ensures count { IfOk result (λ r. length r.0.items ≡ n) }
        ensures within { IfOk result (λ r. r.1 ≤ length self.now.stack) }
        ensures names { IfOk result (λ r. All (NamesBelow (length self.now.heap)) r.0.items) }
    {
        let (mut values, rest) = self.popped(alloc, n)?;
        values.reverse();
        Ok((values, rest))
    }

    /// Cuts the stack to its lowest `len` values, and closes the upvalues of the others. Takes no memory.
    #[inline(always)]
    pub(crate) fn cut(&mut self, len: u32)
        requires { len ≤ length self.old.stack }
        ensures { self.new ≡ cut_to (keep len self.old.stack) self.old }
    {
        let State {
            stack,
            upvalues,
            ..
        } = self;
        upvalues.close(len, stack);
        stack.keep(len);
    }

    /// The innermost frame goes on at a place. Takes no memory.
    pub(crate) fn go_to(&mut self, place: u32)
        ensures { self.new ≡ goto place (innermost self.old.frames) (others_of self.old.frames) self.old }
    {
        self.frame.place = place;
    }

    /// Puts a value on the stack.
    #[inline(always)]
    pub(crate) fn push(&mut self, v: Value) -> Result<(), AllocError>
        requires { NamesBelow (length self.old.heap) v }
        ensures { OnOk result (self.new ≡ push v self.old) }
    {
        self.stack.push(v)
    }

    /// On to the next operation, with the lowest `rest` values of the stack left. Takes no memory.
    #[inline(always)]
    pub(crate) fn go_on(&mut self, behind: u32, rest: u32)
        requires { rest ≤ length self.old.stack }
        ensures { self.new ≡ on_with (here_of behind self.old) (keep rest self.old.stack) self.old }
    {
        self.cut(rest);
        self.go_to(behind);
    }

    /// On to the next operation, with the lowest `rest` values of the stack left and this value on them.
    #[inline(always)]
    pub(crate) fn go_on_with(&mut self, behind: u32, rest: u32, v: Value) -> Result<(), AllocError>
        requires rest { rest ≤ length self.old.stack }
        requires names { NamesBelow (length self.old.heap) v }
        ensures { OnOk result (self.new ≡ on_and_push (here_of behind self.old) (keep rest self.old.stack) v self.old) }
    {
        self.go_on(behind, rest);
        self.push(v)
    }

    /// The local of the innermost frame with an index; one that isn't there is null. Takes no memory.
    pub(crate) fn local(&self, index: u32) -> Value
        ensures value { result ≡ or_null (value_at self.now.stack ((innermost self.now.frames).base + index)) }
        ensures names { NamesBelow (length self.now.heap) result }
    {
        let place = self.base() as usize + index as usize;
        self.stack.at(place).unwrap_or(Value::Null)
    }

    /// Sets the value at a place of the stack; where there is none nothing changes. Takes no memory.
    pub(crate) fn set_value(&mut self, place: usize, v: Value)
        requires { NamesBelow (length self.old.heap) v }
        ensures { self.new ≡ record self.old { stack = with_value self.old.stack place v } }
    {
        self.stack.set(place, v);
    }

    /// How many turns were spent. Takes no memory.
    pub(crate) fn turns(&self) -> u32
        ensures turns { result ≡ self.now.turns }
        ensures few { result ≤ max_turns }
    {
        let meter = self.meter;
        meter.turns
    }

    /// Spends a turn, where one is left. Takes no memory.
    pub(crate) fn spend_turn(&mut self) -> bool
        ensures left { IsTrue result ↔ (self.old.turns < max_turns) }
        ensures spent { OnTrue result (self.new ≡ record self.old { turns = self.old.turns + 1 }) }
        ensures unchanged { OnFalse result (self.new ≡ self.old) }
    {
        self.meter.spend_turn()
    }

    /// The run ends. Takes no memory.
    pub(crate) fn end(&mut self, end: End)
        ensures { self.new ≡ ends end self.old }
    {
        self.shown.end = Some(end);
    }
}
