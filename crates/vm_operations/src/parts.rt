//! The parts of a machine, lent to be saved, and the machine of such parts.

ghost use Rattle.std.specs.Prelude.{◌≡◌, ◌∷◌, ◌<◌, ◌^◌, [], true, false, map, length, reverse};
ghost use Rattle.vm_frames.specs.Views.{upvalue_of};
ghost use Rattle.vm_frames.specs.Parts.{others_of};
ghost use Rattle.vm_course.specs.States.{is_state};
ghost use Rattle.vm_operations.specs.Parts.{run_of};

use crate::machine::Machine;
use crate::state::State;
use hog_value::{Heap, Meter, Shown, Value};
use vm_frames::{Frame, Frames, Stack, ThrowFrame, Throws, Upvalue, Upvalues};

/// The parts of a machine. It waits for a reply where `waiting` is set, and has ended where an end is shown.
#[derive(Drop)]
pub struct Parts {
    pub ops: u64,
    pub used: u64,
    pub globals: Option<u32>,
    pub stack: Stack,
    pub frame: Frame,
    pub around: Frames,
    pub throws: Throws,
    pub upvalues: Upvalues,
    pub heap: Heap,
    pub meter: Meter,
    pub shown: Shown,
    pub waiting: bool,
}

impl Machine {
    /// The machine of these parts, which are those of a state. Takes no memory.
    pub fn from_parts(p: Parts) -> Machine
        requires { is_state (run_of p) ≡ true }
        ensures run { result.run ≡ run_of p }
        ensures fresh { result.spent ≡ false }
    {
        let state = State {
            stack: p.stack,
            frame: p.frame,
            around: p.around,
            throws: p.throws,
            upvalues: p.upvalues,
            heap: p.heap,
            meter: p.meter,
            shown: p.shown,
            waiting: p.waiting,
        };
        Machine {
            state,
            ops: p.ops,
            used: p.used,
            globals: p.globals,
            spent: false,
        }
    }

    /// How many replies were taken in. Those to come are no part of a machine. Takes no memory.
    pub fn used(&self) -> u64
        ensures count { result ≡ self.now.run.used }
        ensures none_to_come { self.now.run.state.replies ≡ [] }
    {
        let _turns = self.state.meter.turns;
        self.used
    }

    /// The number of the cell of the globals. Takes no memory.
    pub fn globals(&self) -> Option<u32>
        ensures { result ≡ self.now.run.globals }
    {
        self.globals
    }

    /// The units of memory that were spent. Takes no memory.
    pub fn units(&self) -> u32
        ensures { result ≡ self.now.run.state.units }
    {
        self.state.meter.units
    }

    /// The values on the stack, the lowest first. Takes no memory.
    pub fn stack(&self) -> &[Value]
        ensures { self.now.run.state.stack ≡ reverse result.now }
    {
        self.state.stack.values()
    }

    /// The innermost call. Takes no memory.
    pub fn innermost(&self) -> Frame
        ensures { self.now.run.state.frames ≡ result ∷ others_of self.now.run.state.frames }
    {
        self.state.frame
    }

    /// The calls around the innermost, the outermost first. Takes no memory.
    pub fn around(&self) -> &[Frame]
        ensures { others_of self.now.run.state.frames ≡ reverse result.now }
    {
        self.state.around.list()
    }

    /// The throw frames, as they came. Takes no memory.
    pub fn throws(&self) -> &[ThrowFrame]
        ensures { self.now.run.state.throws ≡ reverse result.now }
    {
        self.state.throws.list()
    }

    /// The upvalues, by number. Takes no memory.
    pub fn upvalues(&self) -> &[Upvalue]
        ensures { self.now.run.state.upvalues ≡ map upvalue_of result.now }
    {
        self.state.upvalues.list()
    }

    /// The cells. Takes no memory.
    pub fn heap(&self) -> &Heap
        ensures cells { result.now ≡ self.now.run.state.heap }
        ensures few { length result.now < 2 ^ 32 }
    {
        let _units = self.state.meter.units;
        &self.state.heap
    }
}
