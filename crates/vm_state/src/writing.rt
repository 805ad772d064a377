//! Writing a state.

ghost use Rattle.std.specs.Prelude.{◌≡◌, ◌++◌, ◌∷◌, ◌<◌, ◌^◌, [], length, IfOk, map, string_bytes};
ghost use Rattle.std.specs.List.{AllByRecursion};
ghost use Rattle.serde_json.specs.View.{view};
ghost use Rattle.vm_course.specs.Run.{RunState};
ghost use Rattle.vm_frames.specs.Views.{upvalue_of};
ghost use Rattle.state_forms.specs.Shapes.{list, number_data};
ghost use Rattle.state_forms.specs.Values.{value_data, cell_data, ValueFits, CellFits};
ghost use Rattle.state_forms.specs.Shown.{item_data};
ghost use Rattle.state_forms.specs.Calls.{frame_data, FrameFits, throw_data, ThrowFits, upvalue_data, UpvalueFits};
ghost use Rattle.vm_state.specs.Laws.{SavedFits};
ghost use Rattle.vm_state.specs.Layout.{elements_of, rest_data};
ghost use Rattle.vm_state.specs.Text.{text_in};
ghost use Rattle.vm_state.specs.Forms.{counts_shown, forms_shown, elements_by, ListsFit};

use crate::parts::{Counts, Format};
use crate::standing::requests_in;
use hog_value::{Heap, TraceItem, Value as Val};
use serde_json::Value;
use state_forms::calls::write_mode;
use state_forms::forms::{
    Json, list_value, number, number_wide, string, write_all, write_each, write_maybe,
};
use state_forms::upvalues::write_upvalues;
use state_forms::values::write_cells;
use std::alloc::{AllocError, Global};
use vm_frames::{Frame, ThrowFrame, Upvalue};
use vm_operations::Machine;

/// The forms of stack, frames and throw frames.
#[derive(Drop)]
pub struct CallForms {
    pub stack: Value,
    pub frames: Value,
    pub throws: Value,
}

/// The forms of upvalues, cells and what was shown.
#[derive(Drop)]
pub struct HeldForms {
    pub upvalues: Value,
    pub heap: Value,
    pub trace: Value,
}

/// The forms of what stands behind the counts.
#[derive(Drop)]
pub struct Forms {
    pub globals: Value,
    pub end: Value,
    pub calls: CallForms,
    pub held: HeldForms,
}

/// The form of the frames, of which the innermost stands apart.
fn write_frames(alloc: Global, around: &[Frame], innermost: &Frame) -> Result<Value, AllocError>
    ensures form { IfOk result (λ v. view v ≡ list (map frame_data (around.now ++ innermost.now ∷ []))) }
    ensures ranged { IfOk result (λ _. AllByRecursion FrameFits (around.now ++ innermost.now ∷ [])) }
{
    let mut written = write_each(alloc, around)?;
    written.push(innermost.write(alloc)?)?;
    Ok(list_value(written))
}

/// The forms of stack, frames and throw frames.
pub fn write_calls(
    alloc: Global,
    stack: &[Val],
    around: &[Frame],
    innermost: &Frame,
    throws: &[ThrowFrame],
) -> Result<CallForms, AllocError>
    ensures stack { IfOk result (λ w. view w.stack ≡ list (map value_data stack.now)) }
    ensures frames { IfOk result (λ w. view w.frames ≡ list (map frame_data (around.now ++ innermost.now ∷ []))) }
    ensures throws { IfOk result (λ w. view w.throws ≡ list (map throw_data throws.now)) }
    ensures stack_fits { IfOk result (λ _. AllByRecursion ValueFits stack.now) }
    ensures frames_fit { IfOk result (λ _. AllByRecursion FrameFits (around.now ++ innermost.now ∷ [])) }
    ensures throws_fit { IfOk result (λ _. AllByRecursion ThrowFits throws.now) }
{
    let stack = write_all(alloc, stack)?;
    let frames = write_frames(alloc, around, innermost)?;
    let throws = write_all(alloc, throws)?;
    Ok(CallForms {
        stack,
        frames,
        throws,
    })
}

/// The forms of upvalues, cells and what was shown.
pub fn write_held(
    alloc: Global,
    upvalues: &[Upvalue],
    heap: &Heap,
    trace: &[TraceItem],
) -> Result<HeldForms, AllocError>
    requires { length heap.now < 2 ^ 32 }
    ensures upvalues { IfOk result (λ w. view w.upvalues ≡ list (map upvalue_data (map upvalue_of upvalues.now))) }
    ensures heap { IfOk result (λ w. view w.heap ≡ list (map cell_data heap.now)) }
    ensures trace { IfOk result (λ w. view w.trace ≡ list (map item_data trace.now)) }
    ensures upvalues_fit { IfOk result (λ _. AllByRecursion UpvalueFits (map upvalue_of upvalues.now)) }
    ensures heap_fits { IfOk result (λ _. AllByRecursion CellFits heap.now) }
{
    let upvalues = write_upvalues(alloc, upvalues)?;
    let heap = write_cells(alloc, heap)?;
    let trace = write_all(alloc, trace)?;
    Ok(HeldForms {
        upvalues,
        heap,
        trace,
    })
}

/// The array of a state in the first format.
fn first(alloc: Global, name: Value, n: &Counts, f: Forms) -> Result<Value, AllocError>
    ensures { IfOk result (λ v. view v ≡ list (view name ∷ number_data 1 ∷ counts_shown n.now ++ forms_shown f)) }
{
    Ok(list_value(vec![in alloc;
        name,
        number(1),
        number_wide(n.ops),
        number(n.turns),
        number(n.units),
        number_wide(n.used),
        f.globals,
        f.end,
        f.calls.stack,
        f.calls.frames,
        f.calls.throws,
        f.held.upvalues,
        f.held.heap,
        f.held.trace,
    ]?))
}

/// The array of a state in the second format, which has the number of requests too.
fn second(alloc: Global, name: Value, n: &Counts, asked: u64, f: Forms) -> Result<Value, AllocError>
    ensures { IfOk result (λ v. view v ≡ list (view name ∷ number_data 2 ∷ counts_shown n.now ++ number_data asked ∷ forms_shown f)) }
{
    Ok(list_value(vec![in alloc;
        name,
        number(2),
        number_wide(n.ops),
        number(n.turns),
        number(n.units),
        number_wide(n.used),
        number_wide(asked),
        f.globals,
        f.end,
        f.calls.stack,
        f.calls.frames,
        f.calls.throws,
        f.held.upvalues,
        f.held.heap,
        f.held.trace,
    ]?))
}

/// The array of a state in a format.
fn elements(
    alloc: Global,
    format: Format,
    n: &Counts,
    asked: u64,
    f: Forms,
) -> Result<Value, AllocError>
    ensures { IfOk result (λ v. view v ≡ list (elements_by format n.now asked f)) }
{
    let name = string(alloc, "hog-state")?;
    match format {
        Format::First => first(alloc, name, n, f),
        Format::Second => second(alloc, name, n, asked, f),
    }
}

/// The text of a state whose parts have these forms.
pub fn write_text(
    alloc: Global,
    format: Format,
    n: &Counts,
    asked: u64,
    f: Forms,
) -> Result<String, AllocError>
    ensures { IfOk result (λ t. (m : RunState) → SavedFits m → elements_by format n.now asked f ≡ elements_of format m → string_bytes t ≡ text_in format m) }
{
    elements(alloc, format, n, asked, f)?.to_string(alloc)
}

/// The forms of what stands behind a machine's counts.
fn write_forms(alloc: Global, m: &Machine) -> Result<Forms, AllocError>
    ensures form { IfOk result (λ f. forms_shown f ≡ rest_data m.now.run) }
    ensures fits { IfOk result (λ _. ListsFit m.now.run) }
{
    let shown = m.shown();
    let globals = write_maybe(alloc, &m.globals())?;
    let end = write_mode(alloc, m.is_waiting(), &shown.end)?;
    let calls = write_calls(alloc, m.stack(), m.around(), &m.innermost(), m.throws())?;
    let held = write_held(alloc, m.upvalues(), m.heap(), shown.trace.items())?;
    Ok(Forms {
        globals,
        end,
        calls,
        held,
    })
}

/// The text of a machine in a format. A trace of 2^32 requests or more is answered as want of memory.
pub fn write_machine(alloc: Global, format: Format, m: &Machine) -> Result<String, AllocError>
    ensures text { IfOk result (λ t. string_bytes t ≡ text_in format m.now.run) }
    ensures fits { IfOk result (λ _. SavedFits m.now.run) }
{
    let counts = Counts {
        ops: m.ops(),
        turns: m.turns(),
        units: m.units(),
        used: m.used(),
    };
    let asked = requests_in(m.shown().trace.items());
    if asked > u32::MAX as u64 {
        return Err(AllocError);
    }
    let forms = write_forms(alloc, m)?;
    write_text(alloc, format, &counts, asked, forms)
}
