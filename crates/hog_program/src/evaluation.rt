//! Running a program without replies.

ghost use Rattle.std.specs.Prelude.{◌≡◌, false, IfOk};
ghost use Rattle.hogvm.specs.Calls.{is_globals};
ghost use Rattle.hog_program.specs.Evaluation.{IsCompiled, ShowsMeaning};

use hog_bridge::laws::{course_is_bounded, course_is_meaning};
use hog_ops::Code;
use hog_value::HogText;
use hogvm::{Pause, StartStop, Steps};
use std::alloc::Global;
use vm_course::laws::{begins_on_course, slices_belong, slices_count, slices_on_course};
use vm_operations::Machine;

/// How many operations are done at a time.
const SLICE: u32 = u32::MAX;

/// The machine of a compiled program on the JSON text of its globals, at its end or at the first request that it waits for:
/// it shows all that the program means without replies. Each program comes to that. NotAnObject comes only where the text
/// isn't that of a JSON object whose numbers are whole numbers of 64 bits.
pub fn evaluate(alloc: Global, code: &Code, globals: &HogText) -> Result<Machine, StartStop>
    requires compiled { IsCompiled code.now }
    ensures shows { IfOk result (λ m. ShowsMeaning code.now globals.now m.run.state) }
    ensures not_an_object { result ≡ Err StartStop.NotAnObject → is_globals globals.now ≡ false }
{
    course_is_meaning();
    course_is_bounded();
    begins_on_course();
    slices_on_course();
    slices_count();
    slices_belong();
    let _ops = code.ops();
    let mut machine = Machine::start(alloc, code, globals)?;
    loop {
        match machine.run(alloc, code, SLICE)? {
            // The turns bound the operations.
            Pause::Sliced => {
                let _turns = machine.turns();
            }
            Pause::Asks => return Ok(machine),
            Pause::Ended => return Ok(machine),
        }
    }
}
