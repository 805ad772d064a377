//! The command that plays a script.

ghost use Rattle.std.specs.Prelude.{◌≡◌, ◌≤◌, ◌↔◌, IfSome, IsSome};
ghost use Rattle.line_writer.specs.Added.{AddsSome};
ghost use Rattle.hog_jobs.specs.Rows.{KeepsTheMeaning};
ghost use Rattle.script_steps.specs.Plays.{Plays, PlaysPart};
ghost use Rattle.hog_runner.specs.Commands.{PlaysWhole, ScriptOutputs, ScriptPart, ScriptRefuses};
ghost use Rattle.hog_runner.specs.Serves.{ClosesQueue, Puts, Serves};

use crate::answer::{Answer, Closed, ended};
use crate::refusals::{refuse, refuse_script};
use crate::script::{NoScript, read_source_script};
use hog_outside::{Sink, Source};
use job_keeper::Keeper;
use script_reader::Script;
use script_steps::{PlayStop, play};
use std::alloc::Global;

/// Plays the script that the source has.
pub(crate) fn replay<S: Source, W: Sink, K: Keeper>(
    alloc: Global,
    source: &mut S,
    sink: &mut W,
    keeper: K,
) -> Answer<K>
    ensures serves { Serves S.left S.faults W.taken W.faults
        ScriptRefuses ScriptOutputs (ScriptPart K.faults keeper)
        source.old source.new sink.old sink.new result.status }
    ensures closed { IsSome result.closed ↔ (result.status ≡ 0) }
    ensures played { IfSome result.closed (λ closed. ClosesQueue (S.left source.old) (W.taken sink.old) (W.taken sink.new)
        (K.faults keeper) (K.faults closed.jobs.keeper) closed.jobs.rows closed.jobs.history) }
    ensures meaning { IfSome result.closed (λ closed. KeepsTheMeaning closed.jobs.rows closed.jobs.history) }
{
    match read_source_script(alloc, source) {
        Ok(script) => replay_script(alloc, &script, sink, keeper),
        Err(NoScript::TooLarge) => {
            refuse(sink, b"refused: too large\n");
            ended(1)
        }
        Err(NoScript::Refused(stop)) => ended(refuse_script(alloc, sink, stop)),
        Err(NoScript::ReadFailed) => ended(3),
        Err(NoScript::OutOfMemory) => ended(5),
    }
}

/// Plays a script on an empty queue.
fn replay_script<W: Sink, K: Keeper>(
    alloc: Global,
    script: &Script,
    sink: &mut W,
    keeper: K,
) -> Answer<K>
    ensures output { Puts W.taken W.faults (PlaysWhole script.now) (PlaysPart K.faults keeper script.now)
        sink.old sink.new result.status }
    ensures closed { IsSome result.closed ↔ (result.status ≡ 0) }
    ensures played { IfSome result.closed (λ closed. AddsSome (W.taken sink.old) (W.taken sink.new)
        (Plays (K.faults keeper) (K.faults closed.jobs.keeper) script.now closed.jobs.rows closed.jobs.history)) }
    ensures meaning { IfSome result.closed (λ closed. KeepsTheMeaning closed.jobs.rows closed.jobs.history) }
    ensures count { W.faults sink.old ≤ W.faults sink.new }
{
    match play(alloc, script, keeper, sink) {
        Ok(played) => Answer {
            status: 0,
            closed: Some(Closed { jobs: played.jobs }),
        },
        Err(PlayStop::Write) => ended(4),
        Err(PlayStop::OutOfMemory) => ended(5),
    }
}
