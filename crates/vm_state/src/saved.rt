//! Saving and loading a machine.

ghost use Rattle.std.specs.Prelude.{◌≡◌, ◌≢◌, true, false, cond, IfOk, IsTrue, Some, None, Ok, Err, bytes_eq, map, alloc_error};
ghost use Rattle.std.specs.List.{AllByRecursion};
ghost use Rattle.std.specs.Str.{IsUtf8};
ghost use Rattle.serde_json.specs.View.{view};
ghost use Rattle.hog_value.specs.Views.{cell_of};
ghost use Rattle.hog_value.specs.declared.trace.End.TheVariants as end;
ghost use Rattle.hog_ops.specs.Plain.{Ops};
ghost use Rattle.vm_course.specs.State.{Ended};
ghost use Rattle.vm_course.specs.Run.{RunState};
ghost use Rattle.vm_frames.specs.Reading.{reading_of};
ghost use Rattle.state_forms.specs.Shapes.{Gives};
ghost use Rattle.state_forms.specs.Values.{CellFits};
ghost use Rattle.vm_state.specs.Laws.{SavedFits, IsMachineOf, format_of_text};
ghost use Rattle.vm_state.specs.Parts.{state_of, written_of};
ghost use Rattle.vm_course.specs.States.{is_state};
ghost use Rattle.vm_state.specs.Text.{text_in, state_text, state_in, of_written, load_of, Answers};

use crate::belonging::parts_belong;
use crate::building::machine_of;
use crate::parts::{Format, Written};
use crate::reading::read_written;
use crate::standing::written_stands;
use crate::stop::StateStop;
use crate::writing::write_machine;
use hog_ops::Code;
use serde_json::Value;
use state_forms::ReadStop;
use std::alloc::{AllocError, Global};
use vm_frames::Table;
use vm_operations::Machine;

/// The text of a machine, as its bytes. One that has met want of memory answers that.
pub fn save(alloc: Global, m: &Machine) -> Result<Vec<u8>, AllocError>
    ensures text { IfOk result (λ text. text.items ≡ state_text m.now.run) }
    ensures utf8 { IfOk result (λ text. IsUtf8 text.items) }
    ensures fits { IfOk result (λ _. SavedFits m.now.run) }
    ensures spent { IsTrue m.now.spent → result ≡ Err alloc_error }
{
    if m.is_spent() {
        return Err(AllocError);
    }
    let text = write_machine(alloc, Format::Second, m)?;
    Ok(text.into_bytes())
}

/// What was read, where it is a state.
fn where_state(w: Written, stands: bool) -> Result<Written, ReadStop>
    ensures gives { Gives written_of result (cond stands (Some (written_of w)) None) }
    ensures stands { IfOk result (λ _. stands ≡ true) }
    ensures same { IfOk result (λ found. found ≡ w) }
{
    if stands {
        Ok(w)
    } else {
        Err(ReadStop::Refused)
    }
}

/// The state of a JSON value.
#[tactic(auto, unfolding(crate::specs::Text::state_in))]
fn read_state(alloc: Global, v: &Value) -> Result<Written, ReadStop>
    ensures gives { Gives written_of result (state_in (view v.now)) }
    ensures state { IfOk result (λ w. is_state (state_of w.parts) ≡ true) }
    ensures ranged { IfOk result (λ w. AllByRecursion CellFits (map cell_of w.parts.held.cells.items)) }
{
    let w = read_written(alloc, v)?;
    let stands = written_stands(alloc, &w)?;
    where_state(w, stands)
}

/// The machine that was read, where these bytes are its text in its format.
fn load_same(alloc: Global, w: Written, bytes: &[u8]) -> Result<Machine, StateStop>
    requires state { is_state (state_of w.parts) ≡ true }
    requires ranged { AllByRecursion CellFits (map cell_of w.parts.held.cells.items) }
    ensures exact { Answers (λ m. m.run) result (cond (bytes_eq (text_in w.format (state_of w.parts)) bytes.now) (Ok (state_of w.parts)) (Err StateStop.NotCanonical)) }
    ensures fits { IfOk result (λ m. SavedFits m.run) }
    ensures fresh { IfOk result (λ m. m.spent ≡ false) }
{
    let format = w.format;
    let machine = machine_of(alloc, w.parts)?;
    let text = write_machine(alloc, format, &machine)?;
    if text.as_str().as_bytes() == bytes {
        Ok(machine)
    } else {
        Err(StateStop::NotCanonical)
    }
}

/// The machine that was read, where it belongs to the code of a table.
fn load_state(alloc: Global, table: &Table, w: Written, bytes: &[u8]) -> Result<Machine, StateStop>
    requires state { is_state (state_of w.parts) ≡ true }
    requires ranged { AllByRecursion CellFits (map cell_of w.parts.held.cells.items) }
    ensures exact { (code : Ops) → table.now ≡ reading_of code → Answers (λ m. m.run) result (of_written code bytes.now (Some (written_of w))) }
    ensures fits { IfOk result (λ m. SavedFits m.run) }
    ensures fresh { IfOk result (λ m. m.spent ≡ false) }
{
    match parts_belong(alloc, table, &w.parts) {
        Ok(true) => load_same(alloc, w, bytes),
        Ok(false) => Err(StateStop::NotThisCode),
        Err(_) => Err(StateStop::OutOfMemory),
    }
}

/// The machine of a JSON value.
fn load_value(alloc: Global, table: &Table, v: &Value, bytes: &[u8]) -> Result<Machine, StateStop>
    ensures exact { (code : Ops) → table.now ≡ reading_of code → Answers (λ m. m.run) result (of_written code bytes.now (state_in (view v.now))) }
    ensures fits { IfOk result (λ m. SavedFits m.run) }
    ensures fresh { IfOk result (λ m. m.spent ≡ false) }
{
    match read_state(alloc, v) {
        Ok(w) => load_state(alloc, table, w, bytes),
        Err(ReadStop::Refused) => Err(StateStop::NotAState),
        Err(ReadStop::OutOfMemory) => Err(StateStop::OutOfMemory),
    }
}

/// The machine of a text, for the code of a table.
#[tactic(auto, unfolding(crate::specs::Text::load_of, crate::specs::Text::of_read))]
fn load_text(alloc: Global, table: &Table, bytes: &[u8]) -> Result<Machine, StateStop>
    ensures exact { (code : Ops) → table.now ≡ reading_of code → IsUtf8 bytes.now → Answers (λ m. m.run) result (load_of code bytes.now) }
    ensures not_utf8 { ¬ (IsUtf8 bytes.now) → Answers (λ m. m.run) result (Err StateStop.NotJson) }
    ensures utf8 { IfOk result (λ _. IsUtf8 bytes.now) }
    ensures fits { IfOk result (λ m. SavedFits m.run) }
    ensures fresh { IfOk result (λ m. m.spent ≡ false) }
{
    match Value::from_slice(alloc, bytes) {
        Ok(v) => load_value(alloc, table, &v, bytes),
        Err(e) if e.is_memory() => Err(StateStop::OutOfMemory),
        Err(_) => Err(StateStop::NotJson),
    }
}

/// The machine of a code that the bytes are the text of, in either format, or the first refusal. Time and memory are linear
/// in the code and the text. A code of 2^32 - 2 elements or more is answered as want of memory.
pub fn load(alloc: Global, code: &Code, bytes: &[u8]) -> Result<Machine, StateStop>
    // Which machine, and which refusal it is.
    ensures exact { IsUtf8 bytes.now → Answers (λ m. m.run) result (load_of code.now bytes.now) }
    ensures not_utf8 { ¬ (IsUtf8 bytes.now) → Answers (λ m. m.run) result (Err StateStop.NotJson) }

    // The text of a machine of the code loads as that machine, in either format.
    ensures back { (m : RunState) → IsMachineOf code.now m → IsUtf8 bytes.now → bytes.now ≡ state_text m
        → Answers (λ m. m.run) result (Ok m) }
    ensures old { (m : RunState) → IsMachineOf code.now m → IsUtf8 bytes.now → bytes.now ≡ text_in Format.First m
        → m.state.mode ≢ Ended end.TooManyFetches → Answers (λ m. m.run) result (Ok m) }

    // What was loaded has these bytes as its text in their format.
    ensures same { IfOk result (λ m. (format : Format) × (format_of_text bytes.now ≡ Some format) × (text_in format m.run ≡ bytes.now)) }
    ensures machine { IfOk result (λ m. IsMachineOf code.now m.run) }
    ensures fresh { IfOk result (λ m. m.spent ≡ false) }
{
    match Table::new(alloc, code) {
        Ok(table) => load_text(alloc, &table, bytes),
        Err(_) => Err(StateStop::OutOfMemory),
    }
}
