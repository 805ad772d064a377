//! Reading the script that a source has.

ghost use Rattle.std.specs.Prelude.{◌≡◌, ◌≢◌, ℕ, ◌+◌, ◌<◌, ◌≤◌, List, [], length, IfOk, OnOk, Err, Some};
ghost use Rattle.std.specs.Option.{ForSome};
ghost use Rattle.hog_outside.specs.Faults.{Rose};
ghost use Rattle.script_reader.specs.Script.{IsNoScript};
ghost use Rattle.script_reader.specs.declared.step.ScriptStop.{ScriptStop as Stop};
ghost use Rattle.hog_runner.specs.Commands.{most_bytes, ScriptOf};
ghost use Rattle.hog_runner.specs.Takes.{TakesAtMost};

use crate::input::{InputStop, read_all};
use hog_outside::Source;
use script_reader::{Script, ScriptStop, read_script};
use std::alloc::Global;

/// Why there is no script.
#[derive(Clone, Copy, Debug, PartialEq, Eq)]
pub enum NoScript {
    /// More than 16,777,216 bytes were read.
    TooLarge,
    /// What was read is no script.
    Refused(ScriptStop),
    ReadFailed,
    OutOfMemory,
}

impl From<InputStop> for NoScript {
    ghost use Rattle.std.specs.Prelude.{◌≡◌};
    ghost use Rattle.hog_runner.specs.Stops.{script_of_input};

    ghost from_gives = { λ stop e. e ≡ script_of_input stop };

    fn from(stop: InputStop) -> NoScript {
        match stop {
            InputStop::TooLarge => NoScript::TooLarge,
            InputStop::Failed => NoScript::ReadFailed,
            InputStop::OutOfMemory => NoScript::OutOfMemory,
        }
    }
}

impl From<ScriptStop> for NoScript {
    ghost use Rattle.std.specs.Prelude.{◌≡◌};
    ghost use Rattle.hog_runner.specs.Stops.{of_script};

    ghost from_gives = { λ stop e. e ≡ of_script stop };

    fn from(stop: ScriptStop) -> NoScript {
        match stop {
            ScriptStop::OutOfMemory => NoScript::OutOfMemory,
            other => NoScript::Refused(other),
        }
    }
}

/// Reads the script that the source has.
pub fn read_source_script<S: Source>(alloc: Global, source: &mut S) -> Result<Script, NoScript>
    ensures script { IfOk result (λ script. ForSome (S.left source.old) (λ bytes. ScriptOf bytes script)) }
    ensures end { OnOk result (ForSome (S.left source.old) (λ _. S.left source.new ≡ Some [])) }
    ensures large { result ≡ Err NoScript.TooLarge
        → ForSome (S.left source.old) (λ bytes. most_bytes < length bytes) }
    ensures refused { (stop : Stop) → result ≡ Err (NoScript.Refused stop)
        → ForSome (S.left source.old) (λ bytes. (length bytes ≤ most_bytes) × IsNoScript bytes stop) }
    ensures failed { result ≡ Err NoScript.ReadFailed
        → Rose (S.faults source.old) (S.faults source.new) }
    ensures bounded { TakesAtMost (most_bytes + 1) (S.left source.old) (S.left source.new) }
    ensures count { S.faults source.old ≤ S.faults source.new }
{
    let text = read_all(alloc, source)?;
    let script = read_script(alloc, &text)?;
    Ok(script)
}
