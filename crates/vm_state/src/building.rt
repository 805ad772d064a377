//! The machine of what was read.

ghost use Rattle.std.specs.Prelude.{◌≡◌, ◌≤◌, ◌<◌, ◌∷◌, true, false, map, length, reverse, IsTrue, IfOk};
ghost use Rattle.std.specs.List.{AllByRecursion};
ghost use Rattle.hog_value.specs.Views.{cell_of};
ghost use Rattle.state_forms.specs.Values.{CellFits};
ghost use Rattle.vm_frames.specs.Parts.{places_differ};
ghost use Rattle.vm_frames.specs.Views.{upvalue_of};
ghost use Rattle.vm_state.specs.Parts.{state_of};
ghost use Rattle.vm_course.specs.States.{is_state};

use crate::parts::Parts;
use hog_value::{Heap, Meter, Shown, Trace};
use std::alloc::{AllocError, Global};
use vm_frames::{Frame, Frames, Stack, Throws, Upvalue, Upvalues};
use vm_operations::Machine;
use vm_operations::parts::Parts as MachineParts;

/// The innermost frame, and those around it. Takes no memory.
fn split(frames: Vec<Frame>) -> (Frames, Frame)
    requires some { 1 ≤ length frames.items }
    requires few { length frames.items ≤ 257 }
    ensures { result.1 ∷ result.0 ≡ reverse frames.items }
{
    let mut around = frames;
    let Some(innermost) = around.pop() else {
        unreachable!()
    };
    (Frames::from_list(around), innermost)
}

/// The upvalues of a machine. Where they are too many to be numbered, that is answered as want of memory.
fn upvalues_of(alloc: Global, list: Vec<Upvalue>) -> Result<Upvalues, AllocError>
    requires { IsTrue (places_differ (map upvalue_of list.items)) }
    ensures { IfOk result (λ us. us ≡ map upvalue_of list.items) }
{
    if list.len() > u32::MAX as usize {
        return Err(AllocError);
    }
    Upvalues::from_list(alloc, list)
}

/// The machine of what was read.
pub fn machine_of(alloc: Global, p: Parts) -> Result<Machine, AllocError>
    requires state { is_state (state_of p) ≡ true }
    requires ranged { AllByRecursion CellFits (map cell_of p.held.cells.items) }
    ensures run { IfOk result (λ m. m.run ≡ state_of p) }
    ensures fresh { IfOk result (λ m. m.spent ≡ false) }
{
    let Parts {
        counts,
        globals,
        waiting,
        end,
        calls,
        held,
    } = p;
    let heap = Heap::from_cells(held.cells);
    let stack = Stack::from_values(calls.stack)?;
    let upvalues = upvalues_of(alloc, held.upvalues)?;
    let (around, frame) = split(calls.frames);
    let trace = Trace::new(held.trace);
    let meter = Meter {
        turns: counts.turns,
        units: counts.units,
        depth: 0,
    };
    Ok(Machine::from_parts(MachineParts {
        ops: counts.ops,
        used: counts.used,
        globals,
        stack,
        frame,
        around,
        throws: Throws::from_list(calls.throws),
        upvalues,
        heap,
        meter,
        shown: Shown { trace, end },
        waiting,
    }))
}
