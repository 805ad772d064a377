//! Reading the program that a source has.

ghost use Rattle.std.specs.Prelude.{◌≡◌, ◌≢◌, ℕ, ◌+◌, ◌<◌, ◌≤◌, List, [], length, IfOk, OnOk, Err};
ghost use Rattle.std.specs.Option.{ForSome};
ghost use Rattle.hog_outside.specs.Faults.{Rose};
ghost use Rattle.hog_tree.specs.Nesting.{deepest, stms_nesting};
ghost use Rattle.hog_tree.specs.View.{tree_of};
ghost use Rattle.hog_program.specs.declared.stop.BuildStop.{BuildStop as Stop};
ghost use Rattle.hog_runner.specs.Commands.{most_bytes, IsReady, ReadsProgram, Rejects};
ghost use Rattle.hog_runner.specs.Takes.{TakesAtMost};

use crate::input::{InputStop, read_all};
use crate::words::SourceCommand;
use hog_outside::Source;
use hog_program::{BuildStop, read_tree, read_whole};
use hog_tree::tree::Tree;
use std::alloc::Global;

/// Why there is no program.
#[derive(Clone, Copy, Debug, PartialEq, Eq)]
pub enum ProgramStop {
    /// More than 16,777,216 bytes were read.
    TooLarge,
    /// What was read is no program.
    Refused(BuildStop),
    ReadFailed,
    OutOfMemory,
}

impl From<InputStop> for ProgramStop {
    ghost use Rattle.std.specs.Prelude.{◌≡◌};
    ghost use Rattle.hog_runner.specs.Stops.{of_input};

    ghost from_gives = { λ stop e. e ≡ of_input stop };

    fn from(stop: InputStop) -> ProgramStop {
        match stop {
            InputStop::TooLarge => ProgramStop::TooLarge,
            InputStop::Failed => ProgramStop::ReadFailed,
            InputStop::OutOfMemory => ProgramStop::OutOfMemory,
        }
    }
}

impl From<BuildStop> for ProgramStop {
    ghost use Rattle.std.specs.Prelude.{◌≡◌};
    ghost use Rattle.hog_runner.specs.Stops.{of_build};

    ghost from_gives = { λ stop e. e ≡ of_build stop };

    fn from(stop: BuildStop) -> ProgramStop {
        match stop {
            BuildStop::OutOfMemory => ProgramStop::OutOfMemory,
            other => ProgramStop::Refused(other),
        }
    }
}

/// Reads the program of a text, as the command asks for it.
fn read_text(alloc: Global, command: SourceCommand, text: &[u8]) -> Result<Tree, BuildStop>
    ensures reads { IfOk result (λ tree. ReadsProgram command text.now (tree_of tree)) }
    ensures low { IfOk result (λ tree. stms_nesting (tree_of tree) ≤ deepest) }
    ensures ready { IfOk result (λ tree. IsReady command (tree_of tree)) }
    ensures rejects { (stop : Stop) → result ≡ Err stop → stop ≢ BuildStop.OutOfMemory
        → Rejects command text.now stop }
{
    match command {
        SourceCommand::Eval | SourceCommand::Compile => read_whole(alloc, text),
        SourceCommand::Fmt => read_tree(alloc, text),
    }
}

/// Reads the program that the source has, as the command asks for it.
pub fn read_program<S: Source>(
    alloc: Global,
    command: SourceCommand,
    source: &mut S,
) -> Result<Tree, ProgramStop>
    ensures program { IfOk result (λ tree. ForSome (S.left source.old) (λ bytes. ReadsProgram command bytes (tree_of tree))) }
    ensures low { IfOk result (λ tree. stms_nesting (tree_of tree) ≤ deepest) }
    ensures ready { IfOk result (λ tree. IsReady command (tree_of tree)) }
    ensures small { IfOk result (λ tree. ForSome (S.left source.old) (λ bytes. length bytes ≤ most_bytes)) }
    ensures end { OnOk result (ForSome (S.left source.old) (λ _. S.left source.new ≡ Some [])) }
    ensures large { result ≡ Err ProgramStop.TooLarge
        → ForSome (S.left source.old) (λ bytes. most_bytes < length bytes) }
    ensures refused { (stop : Stop) → result ≡ Err (ProgramStop.Refused stop)
        → ForSome (S.left source.old) (λ bytes. (length bytes ≤ most_bytes) × Rejects command bytes stop) }
    ensures failed { result ≡ Err ProgramStop.ReadFailed
        → Rose (S.faults source.old) (S.faults source.new) }
    ensures bounded { TakesAtMost (most_bytes + 1) (S.left source.old) (S.left source.new) }
    ensures count { S.faults source.old ≤ S.faults source.new }
{
    let text = read_all(alloc, source)?;
    let tree = read_text(alloc, command, &text)?;
    Ok(tree)
}
