//! Writing the lines of refusals.

ghost use Rattle.std.specs.Prelude.{◌≤◌};
ghost use Rattle.hog_outside.specs.Faults.{Rose};
ghost use Rattle.line_writer.specs.Added.{AddsUnless};
ghost use Rattle.hog_runner.specs.Causes.{cause_of, script_cause};
ghost use Rattle.hog_runner.specs.Serves.{PutsRefusal};

use crate::causes::{refusal_of, script_refusal};
use hog_outside::Sink;
use hog_program::BuildStop;
use line_writer::write_whole;
use script_reader::ScriptStop;
use std::alloc::Global;

/// Writes the line of a refusal. A fault leaves a prefix of it.
pub(crate) fn refuse<W: Sink>(sink: &mut W, line: &[u8])
    ensures line { AddsUnless (Rose (W.faults sink.old) (W.faults sink.new))
        (W.taken sink.old) (W.taken sink.new) line.now }
    ensures count { W.faults sink.old ≤ W.faults sink.new }
{
    let _ = write_whole(sink, line);
}

/// Writes the line of the refusal of a source that is no program. Answers the status.
pub(crate) fn refuse_source<W: Sink>(alloc: Global, sink: &mut W, stop: BuildStop) -> u8
    ensures line { PutsRefusal W.taken W.faults (cause_of stop) sink.old sink.new result }
    ensures count { W.faults sink.old ≤ W.faults sink.new }
{
    let Ok(line) = refusal_of(alloc, stop) else {
        return 5;
    };
    refuse(sink, line.as_bytes());
    1
}

/// Writes the line of the refusal of a text that is no script. Answers the status.
pub(crate) fn refuse_script<W: Sink>(alloc: Global, sink: &mut W, stop: ScriptStop) -> u8
    ensures line { PutsRefusal W.taken W.faults (script_cause stop) sink.old sink.new result }
    ensures count { W.faults sink.old ≤ W.faults sink.new }
{
    let Ok(line) = script_refusal(alloc, stop) else {
        return 5;
    };
    refuse(sink, line.as_bytes());
    1
}
