//! How a machine ends with a shown text, and where a throw lands.

ghost use Rattle.std.specs.Prelude.{◌≡◌, ℕ, ◌+◌, ◌≤◌, ◌<◌, length, take, IfOk, IfSome, IfNone, OnOk};
ghost use Rattle.hog_value.specs.declared.trace.End.TheVariants.{Threw as EndsThrown};
ghost use Rattle.hog_value.specs.Values.{NamesBelow};
ghost use Rattle.hog_value.specs.Meters.{max_units};
ghost use Rattle.hog_value.specs.Cells.{IsClosed};
ghost use Rattle.hog_json.specs.Texts.{shown};
ghost use Rattle.hog_ops.specs.Plain as o;
ghost use Rattle.vm_course.specs.Stack.{keep};
ghost use Rattle.vm_course.specs.Throws.{ends_shown, with_heap, throw_to, throw_value, throw_kind};
ghost use Rattle.vm_operations.specs.Here.{IsFit, Does};

use crate::state::State;
use hog_json::show;
use hog_library::make_thrown;
use hog_value::meter::MAX_UNITS;
use hog_value::{End, HogText, Kind, Stop, Value};
use std::alloc::{AllocError, Global};

impl State {
    /// The shown text of a value, where it can be charged.
    pub(crate) fn shown_text(&self, alloc: Global, v: Value) -> Result<Option<HogText>, AllocError>
        requires { NamesBelow (length self.now.heap) v }
        ensures text { IfOk result (λ o. IfSome o (λ t. t ≡ shown self.now.heap v)) }
        ensures fits { IfOk result (λ o. IfSome o (λ t. self.now.units + length t ≤ max_units)) }
        ensures spent { IfOk result (λ o. IfNone o (max_units < self.now.units + length (shown self.now.heap v))) }
    {
        match show(alloc, &self.heap, v, MAX_UNITS - self.meter.units) {
            Ok(text) => Ok(Some(text)),
            Err(Stop::UnitsSpent) => Ok(None),
            Err(Stop::OutOfMemory) => Err(AllocError),
        }
    }

    /// Nobody catches a value: the run ends. Where its shown text can't be charged, the heap has only its first `cells` cells
    /// again, and so many units are spent.
    fn threw(&mut self, alloc: Global, v: Value, cells: usize, units: u32) -> Result<(), AllocError>
        requires names { NamesBelow (length self.old.heap) v }
        requires closed { IsClosed (take cells self.old.heap) }
        requires few { units ≤ max_units }
        requires fit { IsFit (with_heap (take cells self.old.heap) units self.old) }
        ensures { OnOk result (self.new ≡ ends_shown EndsThrown v (with_heap (take cells self.old.heap) units self.old) self.old) }
    {
        match self.shown_text(alloc, v)? {
            Some(text) => {
                self.meter.units += text.bytes().len() as u32;
                self.end(End::Threw(text));
            }
            None => {
                self.heap.truncate(cells);
                self.meter.units = units;
                self.end(End::MemorySpent);
            }
        }
        Ok(())
    }

    /// Goes back to the frame with a number, the program's being 1. Takes no memory.
    pub(crate) fn land(&mut self, frames: u32)
        requires { 0 < frames }
        ensures { self.new ≡ record self.old { frames = keep frames self.old.frames } }
    {
        if frames <= self.around.len() {
            self.around.keep(frames);
            match self.around.pop() {
                Some(frame) => self.frame = frame,
                None => unreachable!(),
            }
        }
    }

    /// A value is thrown. Where nobody catches it and its shown text can't be charged, the heap has only its first `cells`
    /// cells again, and so many units are spent.
    fn throw_from(
        &mut self,
        alloc: Global,
        v: Value,
        cells: usize,
        units: u32,
    ) -> Result<(), AllocError>
        requires names { NamesBelow (length self.old.heap) v }
        requires closed { IsClosed (take cells self.old.heap) }
        requires few { units ≤ max_units }
        requires fit { IsFit (with_heap (take cells self.old.heap) units self.old) }
        ensures { OnOk result (self.new ≡ throw_to self.old.throws v (with_heap (take cells self.old.heap) units self.old) self.old) }
    {
        let Some(t) = self.throws.last() else {
            return self.threw(alloc, v, cells, units);
        };
        if t.frames == 0 {
            return Ok(());
        }
        let height = t.height.min(self.len());
        self.cut(height);
        self.throws.pop();
        self.land(t.frames);
        self.go_to(t.catch);
        self.push(v)
    }

    /// A value is thrown.
    pub(crate) fn throw_value(&mut self, alloc: Global, v: Value) -> Result<(), AllocError>
        requires { NamesBelow (length self.old.heap) v }
        ensures { OnOk result (self.new ≡ throw_value v self.old) }
    {
        let cells = self.heap.len();
        let units = self.meter.units;
        self.throw_from(alloc, v, cells, units)
    }

    /// THROW
    pub(crate) fn throw(&mut self, alloc: Global) -> Result<(), AllocError>
        ensures { (behind : ℕ) → OnOk result (Does o.Throw behind self.old self.new) }
    {
        let floor = self.floor();
        let all = self.len();
        let (v, _) = self.top(floor, all);
        self.throw_value(alloc, v)
    }

    /// A kind is thrown, as the dictionary that is made of it.
    #[tactic(auto, unfolding(vm_course::specs::Throws::throw_kind))]
    #[cold]
    pub(crate) fn throw_kind(&mut self, alloc: Global, kind: Kind) -> Result<(), AllocError>
        ensures { OnOk result (self.new ≡ throw_kind kind self.old) }
    {
        let cells = self.heap.len();
        let units = self.meter.units;
        let mut meter = self.meter;
        let made = make_thrown(alloc, kind, &mut self.heap, &mut meter);
        self.meter = meter;
        match made {
            Ok(v) => self.throw_from(alloc, v, cells, units),
            Err(Stop::UnitsSpent) => {
                self.end(End::MemorySpent);
                Ok(())
            }
            Err(Stop::OutOfMemory) => Err(AllocError),
        }
    }
}
