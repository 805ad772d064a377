//! Running a filter to its end, or to its first request.

ghost use Rattle.std.specs.Prelude.{◌≡◌, true, false, IfOk};
ghost use Rattle.hogvm.specs.Calls.{is_globals};
ghost use Rattle.event_filter.specs.Verdicts.{ShowsAll};

use hog_bridge::laws::{course_is_bounded, course_is_meaning};
use hog_program::Program;
use hog_program::laws::built_is_named;
use hog_value::HogText;
use hogvm::{Pause, StartStop};
use std::alloc::Global;
use vm_course::laws::{begins_on_course, slices_belong, slices_count, slices_on_course};
use vm_operations::Machine;

/// How many operations are done at a time.
const SLICE: u32 = u32::MAX;

/// The machine of a program on the JSON text of its globals, where it has ended or waits for a reply. It shows all that the
/// program means without replies.
pub(crate) fn rest(
    alloc: Global,
    program: &Program,
    globals: &HogText,
) -> Result<Machine, StartStop>
    ensures shows { IfOk result (λ m. ShowsAll program.now.source globals.now m.run.state) }
    ensures object { IfOk result (λ _. is_globals globals.now ≡ true) }
    ensures not_an_object { result ≡ Err StartStop.NotAnObject → is_globals globals.now ≡ false }
{
    built_is_named();
    course_is_meaning();
    course_is_bounded();
    begins_on_course();
    slices_on_course();
    slices_count();
    slices_belong();
    let _ops = program.code().ops();
    let mut machine = program.start(alloc, globals)?;
    loop {
        match program.go(alloc, &mut machine, SLICE)? {
            // The turns bound the operations.
            Pause::Sliced => {
                let _turns = machine.turns();
            }
            Pause::Asks => return Ok(machine),
            Pause::Ended => return Ok(machine),
        }
    }
}
