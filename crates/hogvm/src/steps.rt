//! What is done with a machine.

ghost use Rattle.std.specs.Prelude.{◌≡◌, false, IsTrue, OnOk, OnErr};

use crate::slice::{go, pause};
use crate::start::{begin, check_globals};
use cyclotron_jobs::Reply;
use hog_ops::Code;
use hog_value::HogText;
use std::alloc::{AllocError, Global};
use vm_course::laws::{begins_belonging, replies_belong};
use vm_operations::Machine;

/// How a slice of a run ends.
#[derive(Clone, Copy, Debug, PartialEq, Eq)]
pub enum Pause {
    /// All operations of the slice were done, and the machine goes on.
    Sliced,
    /// The machine waits for the reply to a request.
    Asks,
    /// The run has ended.
    Ended,
}

/// Why a machine is not started.
#[derive(Clone, Copy, Debug, PartialEq, Eq)]
pub enum StartStop {
    /// The text of the globals isn't that of a JSON object whose numbers are whole numbers of 64 bits.
    NotAnObject,
    OutOfMemory,
}

impl From<AllocError> for StartStop {
    ghost use Rattle.std.specs.Prelude.{◌≡◌};
    ghost use Rattle.hogvm.specs.declared.steps.StartStop.TheVariants.{OutOfMemory};

    ghost from_gives = { λ _ e. e ≡ OutOfMemory };

    fn from(_want: AllocError) -> StartStop {
        StartStop::OutOfMemory
    }
}

/// The calls of a machine. After want of memory in `run` or `resume` the machine is spent, and each later call of the two
/// answers the same and changes nothing.
pub trait Steps: Sized {
    ghost use Rattle.std.specs.Prelude.{◌≡◌, ◌+◌, ◌<◌, ◌≤◌, ◌^◌, true, false, IsTrue, IfOk, OnOk, OnErr, alloc_error};
    ghost use Rattle.std.specs.Bool.{OnFalse};
    ghost use Rattle.hog_ops.specs.Plain.{Ops};
    ghost use Rattle.vm_course.specs.State.{Waiting};
    ghost use Rattle.vm_course.specs.Run.{begun, run_for, resumed};
    ghost use Rattle.vm_course.specs.Belongs.{belongs};
    ghost use Rattle.vm_operations.specs.Machine.{MachineView};
    ghost use Rattle.hogvm.specs.Calls.{is_globals, pause_of};

    /// The run of the machine, and whether it is spent.
    ghost held: { Self → MachineView };

    /// A machine of a code, on the JSON text of its globals. This is operation 1: it makes the literals of the code and the
    /// globals. Where they don't fit, the run has ended, as memory is spent.
    fn start(alloc: Global, code: &Code, globals: &HogText) -> Result<Self, StartStop>
        ensures begun { IfOk result (λ m. (held m).run ≡ begun code.now globals.now) }
        ensures fresh { IfOk result (λ m. (held m).spent ≡ false) }
        ensures belongs { IfOk result (λ m. belongs code.now (held m).run ≡ true) }
        ensures globals { IfOk result (λ _. is_globals globals.now ≡ true) }
        ensures not_an_object { result ≡ Err StartStop.NotAnObject → is_globals globals.now ≡ false };

    /// At most `slice` operations, at least 1; fewer where the machine waits or ends, and none where it does so already. The
    /// machine belongs to the code, and at most 2^64 - 1 operations are counted. How many operations that are, and that the
    /// machine belongs to the code then, are laws of runs (`slices_count` and `slices_belong` of vm_course).
    fn run(&mut self, alloc: Global, code: &Code, slice: u32) -> Result<Pause, AllocError>
        requires some { 1 ≤ slice }
        requires belongs { OnFalse (held self.old).spent (belongs code.now (held self.old).run ≡ true) }
        requires counted { OnFalse (held self.old).spent ((held self.old).run.ops + slice < 2 ^ 64) }
        ensures ran { OnOk result ((held self.new).run ≡ run_for code.now slice (held self.old).run) }
        ensures pause { IfOk result (λ p. p ≡ pause_of (held self.new).run.state.mode) }
        ensures fresh { OnOk result ((held self.new).spent ≡ false) }
        ensures spends { OnErr result (IsTrue (held self.new).spent) }
        ensures spent { IsTrue (held self.old).spent → result ≡ Err alloc_error }
        ensures unchanged { IsTrue (held self.old).spent → held self.new ≡ held self.old };

    /// Takes in the reply for which the machine waits. This is one operation: it makes the response. Where that doesn't fit,
    /// the run has ended, as memory is spent. At most 2^64 - 1 operations are counted, and as many replies.
    fn resume(&mut self, alloc: Global, reply: &Reply) -> Result<(), AllocError>
        requires waits { OnFalse (held self.old).spent ((held self.old).run.state.mode ≡ Waiting) }
        requires counted { OnFalse (held self.old).spent ((held self.old).run.ops + 1 < 2 ^ 64) }
        requires used { OnFalse (held self.old).spent ((held self.old).run.used + 1 < 2 ^ 64) }
        ensures resumed { OnOk result ((held self.new).run
            ≡ resumed (record { status = reply.now.status; body = reply.now.body }) (held self.old).run) }
        ensures one { OnOk result ((held self.new).run.ops ≡ (held self.old).run.ops + 1) }
        ensures replies { OnOk result ((held self.new).run.used ≤ (held self.old).run.used + 1) }
        ensures belongs { (code : Ops) → belongs code (held self.old).run ≡ true
            → OnOk result (belongs code (held self.new).run ≡ true) }
        ensures fresh { OnOk result ((held self.new).spent ≡ false) }
        ensures spends { OnErr result (IsTrue (held self.new).spent) }
        ensures spent { IsTrue (held self.old).spent → result ≡ Err alloc_error }
        ensures unchanged { IsTrue (held self.old).spent → held self.new ≡ held self.old };
}

/// Answers want of memory for a machine that is spent. Takes no memory.
fn refuse_spent(machine: &Machine) -> Result<(), AllocError>
    ensures fresh { OnOk result (machine.now.spent ≡ false) }
    ensures spent { OnErr result (IsTrue machine.now.spent) }
{
    if machine.is_spent() {
        return Err(AllocError);
    }
    Ok(())
}

impl Steps for Machine {
    ghost held = { λ m. m };

    fn start(alloc: Global, code: &Code, globals: &HogText) -> Result<Machine, StartStop> {
        check_globals(alloc, globals)?;
        let _ops = code.ops();
        begins_belonging();
        Ok(begin(alloc, code, globals)?)
    }

    fn run(&mut self, alloc: Global, code: &Code, slice: u32) -> Result<Pause, AllocError> {
        refuse_spent(self)?;
        match go(self, alloc, code, slice) {
            Ok(()) => Ok(pause(self)),
            Err(want) => {
                self.spend();
                Err(want)
            }
        }
    }

    fn resume(&mut self, alloc: Global, reply: &Reply) -> Result<(), AllocError> {
        refuse_spent(self)?;
        replies_belong();
        self.take_reply(alloc, reply.status, &reply.body)
    }
}
