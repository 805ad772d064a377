//! The lines of refusals.

ghost use Rattle.std.specs.Prelude.{◌≡◌, ◌++◌, ℕ, List, IfOk, OnOk, string_bytes, codes};
ghost use Rattle.std.specs.Fmt.{decimal};
ghost use Rattle.hog_runner.specs.Causes.{cause_of, script_cause};
ghost use Rattle.hog_runner.specs.Writes.{refusal};

use hog_program::BuildStop;
use script_reader::ScriptStop;
use std::alloc::{AllocError, Global};

/// The line of the refusal of a source that is no program.
pub fn refusal_of(alloc: Global, stop: BuildStop) -> Result<String, AllocError>
    ensures { IfOk result (λ line. string_bytes line ≡ refusal (cause_of stop)) }
{
    let mut line = String::from_str(alloc, "refused: ")?;
    push_cause(&mut line, stop)?;
    line.push('\n')?;
    Ok(line)
}

/// The line of the refusal of a text that is no script.
pub fn script_refusal(alloc: Global, stop: ScriptStop) -> Result<String, AllocError>
    ensures { IfOk result (λ line. string_bytes line ≡ refusal (script_cause stop)) }
{
    let mut line = String::from_str(alloc, "refused: ")?;
    push_script_cause(&mut line, stop)?;
    line.push('\n')?;
    Ok(line)
}

/// Adds why a source is no program.
fn push_cause(line: &mut String, stop: BuildStop) -> Result<(), AllocError>
    ensures { OnOk result (string_bytes line.new ≡ string_bytes line.old ++ cause_of stop) }
{
    match stop {
        BuildStop::TooLong => line.push_str("program too long"),
        BuildStop::NotUtf8 { at } => push_place(line, "not utf8 at ", at),
        BuildStop::BadByte { at } => push_place(line, "bad byte at ", at),
        BuildStop::Unclosed { at } => push_place(line, "unclosed at ", at),
        BuildStop::TooLarge { at } => push_place(line, "too large a number at ", at),
        BuildStop::Syntax { at } => push_place(line, "syntax at ", at),
        BuildStop::TooNested { at } => push_place(line, "too nested at ", at),
        BuildStop::AlreadyDeclared { at } => push_place(line, "already declared at ", at),
        BuildStop::AssignsUnknown { at } => push_place(line, "assigns unknown at ", at),
        BuildStop::UnknownFunction { at } => push_place(line, "unknown function at ", at),
        BuildStop::WrongCount { at } => push_place(line, "wrong count at ", at),
        BuildStop::OutOfMemory => Ok(()),
    }
}

/// Adds a cause and its place.
fn push_place(line: &mut String, cause: &str, at: usize) -> Result<(), AllocError>
    ensures { OnOk result
        (string_bytes line.new ≡ string_bytes line.old ++ (cause.now ++ decimal at)) }
{
    line.push_str(cause)?;
    write!(line, "{at}")
}

/// Adds the number of a step.
fn push_step(line: &mut String, step: u32) -> Result<(), AllocError>
    ensures { OnOk result
        (string_bytes line.new ≡ string_bytes line.old ++ (codes "step " ++ decimal step)) }
{
    push_place(line, "step ", step as usize)
}

/// Adds why a text is no script.
fn push_script_cause(line: &mut String, stop: ScriptStop) -> Result<(), AllocError>
    ensures { OnOk result (string_bytes line.new ≡ string_bytes line.old ++ script_cause stop) }
{
    match stop {
        ScriptStop::NotJson => line.push_str("not json"),
        ScriptStop::NotAScript => line.push_str("not a script"),
        ScriptStop::TooMany => line.push_str("too many steps"),
        ScriptStop::BadStep { step } => {
            push_step(line, step)?;
            line.push_str(" is bad")
        }
        ScriptStop::BadSource { step, stop } => {
            push_step(line, step)?;
            line.push_str(": ")?;
            push_cause(line, stop)
        }
        ScriptStop::OutOfMemory => Ok(()),
    }
}
