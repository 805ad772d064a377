//! New functions, and what they capture.

ghost use Rattle.std.specs.Prelude.{◌≡◌, ◌≤◌, ◌↔◌, ◌+◌, IsTrue, IfOk, OnOk};
ghost use Rattle.hog_value.specs.Cells.{Fun as FunctionOf};
ghost use Rattle.hog_value.specs.Operations.{made};
ghost use Rattle.hog_value.specs.Meters.{max_units};
ghost use Rattle.vm_course.specs.State.{header};
ghost use Rattle.vm_course.specs.Throws.{on_outcome};
ghost use Rattle.vm_course.specs.Step.{make_function};
ghost use Rattle.vm_frames.specs.Parts.{innermost};
ghost use Rattle.vm_operations.specs.Here.{here_of};
ghost use Rattle.vm_operations.specs.Calls.{captured_all, push_and_go};

use crate::functions::captured_by;
use crate::gathers::set_stop;
use crate::state::State;
use hog_ops::Capture;
use hog_value::items::Numbers;
use hog_value::{Cell, End, FunCell};
use std::alloc::{AllocError, Global};

/// How far behind the place of a CALLABLE its body begins.
const HEADER: u32 = 5;

/// The units that a function's cell costs.
const FUNCTION_COST: u64 = 64;

impl State {
    /// CALLABLE: a new function, which captures variables of the innermost frame. Where its cell doesn't fit, nothing is
    /// captured.
    pub(crate) fn callable(
        &mut self,
        alloc: Global,
        behind: u32,
        captures: &[Capture],
    ) -> Result<(), AllocError>
        requires { (innermost self.old.frames).place + header ≤ behind }
        ensures { OnOk result (self.new ≡ make_function (here_of behind self.old) captures.now self.old) }
    {
        if !self.fits_function() {
            self.end(End::MemorySpent);
            return Ok(());
        }
        let place = self.body_place(behind);
        let numbers = self.capture(alloc, captures)?;
        self.push_function(alloc, behind, place, Numbers::new(numbers))
    }

    /// Whether the cost of a function's cell is left. Takes no memory.
    fn fits_function(&self) -> bool
        ensures { IsTrue result ↔ (self.now.units + 64 ≤ max_units) }
    {
        let mut meter = self.meter;
        meter.spend_units(FUNCTION_COST)
    }

    /// Where the body of a CALLABLE at the place of the innermost frame begins. Takes no memory.
    fn body_place(&self, behind: u32) -> u32
        requires { (innermost self.now.frames).place + header ≤ behind }
        ensures { result ≡ (innermost self.now.frames).place + header }
    {
        let frame = self.frame;
        frame.place + HEADER
    }

    /// The cell of the innermost frame's function. Takes no memory.
    fn function(&self) -> Option<u32>
        ensures { result ≡ (innermost self.now.frames).function }
    {
        let frame = self.frame;
        frame.function
    }

    /// Captures variables of the innermost frame for a function that is to be on top of the stack; the numbers of their
    /// upvalues.
    fn capture(&mut self, alloc: Global, captures: &[Capture]) -> Result<Vec<u32>, AllocError>
        ensures numbers { IfOk result (λ ns. ns.items ≡ (captured_all captures.now self.old).0) }
        ensures upvalues { OnOk result (self.new ≡ record self.old { upvalues = (captured_all captures.now self.old).1 }) }
    {
        let height = self.len() as usize + 1;
        let base = self.base();
        let function = self.function();
        let State { heap, upvalues, .. } = self;
        upvalues.capture_all(alloc, height, base, captured_by(heap, function), captures)
    }

    /// Makes a function's cell, puts it on the stack, and goes on.
    fn push_function(
        &mut self,
        alloc: Global,
        behind: u32,
        place: u32,
        captured: Numbers,
    ) -> Result<(), AllocError>
        ensures { OnOk result (self.new ≡ on_outcome (made (FunctionOf (record { place = place; captured = captured })) self.old.heap self.old.units) (push_and_go (here_of behind self.old)) self.old) }
    {
        let mut meter = self.meter;
        let made = self
            .heap
            .make(Cell::Fun(FunCell { place, captured }), &mut meter);
        self.meter = meter;
        match made {
            Ok(v) => {
                self.go_to(behind);
                self.push(v)
            }
            Err(why) => self.stop(alloc, set_stop(why)),
        }
    }
}
