//! A slice of a run.

ghost use Rattle.std.specs.Prelude.{◌≡◌, ◌+◌, ◌<◌, ◌^◌, true, false, OnOk};
ghost use Rattle.vm_course.specs.Run.{run_for};
ghost use Rattle.vm_course.specs.Belongs.{belongs};
ghost use Rattle.hogvm.specs.Calls.{pause_of};

use crate::steps::Pause;
use hog_ops::Code;
use std::alloc::{AllocError, Global};
use vm_course::laws::{keeps_belonging, slices_compose};
use vm_frames::Table;
use vm_operations::Machine;

/// What a machine does now. Takes no memory.
pub(crate) fn pause(machine: &Machine) -> Pause
    ensures { result ≡ pause_of machine.now.run.state.mode }
{
    if machine.has_ended() {
        Pause::Ended
    } else if machine.is_waiting() {
        Pause::Asks
    } else {
        Pause::Sliced
    }
}

/// At most `slice` operations; fewer where the machine waits or ends. The code is read once, and only where it goes on.
pub(crate) fn go(
    machine: &mut Machine,
    alloc: Global,
    code: &Code,
    slice: u32,
) -> Result<(), AllocError>
    requires fresh { machine.old.spent ≡ false }
    requires belongs { belongs code.now machine.old.run ≡ true }
    requires counted { machine.old.run.ops + slice < 2 ^ 64 }
    ensures ran { OnOk result (machine.new.run ≡ run_for code.now slice machine.old.run) }
    ensures fresh { OnOk result (machine.new.spent ≡ false) }
{
    if !machine.goes_on() {
        return Ok(());
    }
    let table = Table::new(alloc, code)?;
    let _ops = code.ops();
    slices_compose();
    keeps_belonging();
    for _i in 0..slice {
        if !machine.goes_on() {
            return Ok(());
        }
        machine.step(alloc, &table)?;
    }
    Ok(())
}
