//! How a machine is started.

ghost use Rattle.std.specs.Prelude.{◌≡◌, ◌≤◌, Some, None, true, false, IfOk, OnOk};
ghost use Rattle.serde_json.specs.Data.{depth};
ghost use Rattle.serde_json.specs.Read.{read};
ghost use Rattle.serde_json.specs.View.{view};
ghost use Rattle.vm_course.specs.Run.{begun};
ghost use Rattle.hogvm.specs.Calls.{is_globals, is_whole_object};

use crate::steps::StartStop;
use hog_json::{GlobalsStop, globals_text};
use hog_operators::make_first_cells;
use hog_ops::Code;
use hog_value::{Heap, HogText, Meter, Stop};
use serde_json::Value;
use std::alloc::{AllocError, Global};
use std::convert::AsStr;
use vm_frames::Table;
use vm_operations::Machine;

/// The value of a JSON text; a text that isn't JSON is no globals.
fn parsed(alloc: Global, text: &HogText) -> Result<Value, StartStop>
    ensures ok { IfOk result (λ v. read text.now ≡ Some (view v)) }
    ensures nested { IfOk result (λ v. depth (view v) ≤ 127) }
    ensures not_json { result ≡ Err StartStop.NotAnObject → read text.now ≡ None }
{
    match Value::from_str(alloc, text.as_str()) {
        Ok(value) => Ok(value),
        Err(e) if e.is_memory() => Err(StartStop::OutOfMemory),
        Err(_) => Err(StartStop::NotAnObject),
    }
}

/// Whether a value is an object whose numbers are whole numbers of 64 bits.
fn is_whole(alloc: Global, value: &Value) -> Result<bool, AllocError>
    requires { depth (view value.now) ≤ 127 }
    ensures { IfOk result (λ b. b ≡ is_whole_object (Some (view value.now))) }
{
    match globals_text(alloc, value) {
        Ok(kept) => Ok(kept.nulled == 0),
        Err(GlobalsStop::NotAnObject) => Ok(false),
        Err(GlobalsStop::OutOfMemory) => Err(AllocError),
    }
}

/// Refuses a text that isn't that of globals.
pub(crate) fn check_globals(alloc: Global, text: &HogText) -> Result<(), StartStop>
    ensures globals { OnOk result (is_globals text.now ≡ true) }
    ensures not_an_object { result ≡ Err StartStop.NotAnObject → is_globals text.now ≡ false }
{
    let value = parsed(alloc, text)?;
    if is_whole(alloc, &value)? {
        Ok(())
    } else {
        Err(StartStop::NotAnObject)
    }
}

/// The machine of a code behind operation 1, which makes the code's literals and the globals, all of them or none.
pub(crate) fn begin(alloc: Global, code: &Code, globals: &HogText) -> Result<Machine, AllocError>
    requires { is_globals globals.now ≡ true }
    ensures begun { IfOk result (λ m. m.run ≡ begun code.now globals.now) }
    ensures fresh { IfOk result (λ m. m.spent ≡ false) }
{
    let texts = Table::new(alloc, code)?.literals(alloc)?;
    let mut heap = Heap::new(alloc);
    let mut meter = Meter::new();
    match make_first_cells(alloc, texts, globals, &mut heap, &mut meter) {
        Ok(_) => Ok(Machine::begun(alloc, heap, meter)),
        Err(Stop::UnitsSpent) => Ok(Machine::overfull(alloc)),
        Err(Stop::OutOfMemory) => Err(AllocError),
    }
}
