//! Programs that are built: a source, and the code of the whole of it.

ghost use Rattle.std.specs.Prelude.{◌≡◌, ◌≢◌, ◌+◌, ◌<◌, ◌≤◌, ◌^◌, IfOk, OnOk, OnErr, IsTrue, true, false, Ok, Err, alloc_error};
ghost use Rattle.std.specs.Bool.{OnFalse};
ghost use Rattle.vm_course.specs.Run.{begun, run_for};
ghost use Rattle.vm_course.specs.Belongs.{belongs};
ghost use Rattle.hogvm.specs.Calls.{is_globals, pause_of};
ghost use Rattle.hog_program.specs.Build.{IsUnbuilt};
ghost use Rattle.hog_program.specs.Program.{HasCode};
ghost use Rattle.hog_program.specs.declared.stop.BuildStop.{BuildStop as Stop};

use crate::source::read_whole;
use crate::stop::BuildStop;
use hog_compiler::compile_tree;
use hog_ops::Code;
use hog_value::{HogText, TextStop};
use hogvm::{Pause, StartStop, Steps};
use std::alloc::{AllocError, Global};
use std::marker::Model;
use vm_operations::Machine;

/// A program: its source, which is built, and the code of the whole of it. The type keeps that this is its code.
#[derive(Drop)]
pub struct Program {
    source: HogText,
    code: Code,
}

impl Model for Program {
    ghost use Rattle.hog_program.specs.Program.{Built, HasCode};

    ghost Value = { Built };

    ghost use Rattle.hog_ops.specs.Stored.{coded_ops};
    ghost use Rattle.std.specs.Coded.{codes};

    ghost coded = { Prim.hlevel (codes, coded_ops) };

    ghost view = { λ p. record { source = p.source; code = p.code } };

    ghost invariant = { λ p. HasCode p.source p.code };
}

impl Program {
    /// Builds the program of a source. A source is built or it has a refusal, and never both (`built_or_unbuilt`).
    pub fn build(alloc: Global, source: &[u8]) -> Result<Program, BuildStop>
        ensures source { IfOk result (λ p. p.source ≡ source.now) }
        ensures code { IfOk result (λ p. HasCode source.now p.code) }
        ensures unbuilt { (stop : Stop) → result ≡ Err stop → stop ≢ BuildStop.OutOfMemory
            → IsUnbuilt source.now stop }
    {
        let whole = read_whole(alloc, source)?;
        let code = compile_tree(alloc, &whole)?;
        match HogText::from_bytes(alloc, source) {
            Ok(source) => Ok(Program { source, code }),
            Err(TextStop::OutOfMemory) => Err(BuildStop::OutOfMemory),
            Err(TextStop::NotUtf8 { at: _ }) => unreachable!(),
        }
    }

    /// The text that it was built from. Takes no memory.
    pub fn source(&self) -> &HogText
        ensures value { result.now ≡ self.now.source }
        ensures built { HasCode self.now.source self.now.code }
    {
        &self.source
    }

    /// The code of the whole program. Takes no memory.
    pub fn code(&self) -> &Code
        ensures value { result.now ≡ self.now.code }
        ensures built { HasCode self.now.source self.now.code }
    {
        &self.code
    }

    /// The program's machine on the JSON text of its globals. This is operation 1: it makes the literals and the globals.
    /// Where they don't fit, the run has ended, as memory is spent.
    pub fn start(&self, alloc: Global, globals: &HogText) -> Result<Machine, StartStop>
        ensures begun { IfOk result (λ m. m.run ≡ begun self.now.code globals.now) }
        ensures fresh { IfOk result (λ m. m.spent ≡ false) }
        ensures belongs { IfOk result (λ m. belongs self.now.code m.run ≡ true) }
        ensures globals { IfOk result (λ _. is_globals globals.now ≡ true) }
        ensures not_an_object { result ≡ Err StartStop.NotAnObject → is_globals globals.now ≡ false }
    {
        Machine::start(alloc, &self.code, globals)
    }

    /// At most `slice` operations of the program, at least 1; fewer where the machine waits or ends, and none where it does
    /// so already. The machine belongs to the program's code, and at most 2^64 - 1 operations are counted. After want of
    /// memory the machine is spent.
    pub fn go(&self, alloc: Global, machine: &mut Machine, slice: u32) -> Result<Pause, AllocError>
        requires some { 1 ≤ slice }
        requires belongs { OnFalse machine.old.spent (belongs self.now.code machine.old.run ≡ true) }
        requires counted { OnFalse machine.old.spent (machine.old.run.ops + slice < 2 ^ 64) }
        ensures ran { OnOk result (machine.new.run ≡ run_for self.now.code slice machine.old.run) }
        ensures pause { IfOk result (λ p. p ≡ pause_of machine.new.run.state.mode) }
        ensures fresh { OnOk result (machine.new.spent ≡ false) }
        ensures spends { OnErr result (IsTrue machine.new.spent) }
        ensures spent { IsTrue machine.old.spent → result ≡ Err alloc_error }
        ensures unchanged { IsTrue machine.old.spent → machine.new ≡ machine.old }
    {
        machine.run(alloc, &self.code, slice)
    }
}
