//! Playing scripts on a queue.

ghost use Rattle.std.specs.Prelude.{◌≡◌, ◌≤◌, replicate, None, IfOk};
ghost use Rattle.hog_outside.specs.Faults.{Rose};
ghost use Rattle.line_writer.specs.Added.{AddsSome, AddsSomePrefix};
ghost use Rattle.hog_jobs.specs.Rows.{KeepsTheMeaning};
ghost use Rattle.script_steps.specs.Headline.{DeadFlushChangesNothing, LiveFlushIsDone};
ghost use Rattle.script_steps.specs.Plays.{Plays, PlaysPart};

use crate::laws::{dead_flush, keeps_the_meaning, live_flush};
use crate::lines::{write_closing, write_step};
use crate::said::Held;
use crate::steps::act;
use crate::stop::PlayStop;
use cyclotron_core::queue::QueueState;
use hog_jobs::HogCourse;
use hog_outside::Sink;
use job_keeper::keeper::Keeper;
use script_reader::Script;
use std::alloc::{AllocError, Global};

/// How many workers a play has.
const WORKERS: usize = 16;

/// The queue at the end of a play.
#[derive(Drop)]
pub struct Played<K: Keeper> {
    pub jobs: QueueState<HogCourse, K>,
}

/// Hands that hold nothing.
fn empty_hands(alloc: Global) -> Result<Vec<Option<Held>>, AllocError>
    ensures { IfOk result (λ hands. hands.items ≡ replicate 16 None) }
{
    let mut hands = Vec::new(alloc);
    for _i in 0..WORKERS {
        hands.push(None)?;
    }
    Ok(hands)
}

/// Plays the steps of a script on an empty queue, and writes the line of each step as it is done, and then the lines of
/// all jobs and the counts of entries. A keeper's fault is said in place of the step, and all goes on.
pub fn play<K: Keeper, W: Sink>(
    alloc: Global,
    script: &Script,
    keeper: K,
    sink: &mut W,
) -> Result<Played<K>, PlayStop>
    // The queue is where the play of the steps leads, and all lines were written. After a refusal the lines of the steps
    // that were played were, or a prefix of them.
    ensures played { IfOk result (λ played. AddsSome (W.taken sink.old) (W.taken sink.new)
        (Plays (K.faults keeper) (K.faults played.jobs.keeper) script.now played.jobs.rows played.jobs.history)) }
    ensures prefix { AddsSomePrefix (W.taken sink.old) (W.taken sink.new) (PlaysPart K.faults keeper script.now) }

    // Whatever was played: each job's committed trace is a beginning of the meaning of its source on its committed
    // replies, and a completed job's trace and end are that meaning.
    ensures meaning { IfOk result (λ played. KeepsTheMeaning played.jobs.rows played.jobs.history) }

    // What a flush does wherever it comes among the steps.
    ensures dead_flush { DeadFlushChangesNothing }
    ensures live_flush { LiveFlushIsDone }

    // A write fails only by a fault of the sink, whose count never falls.
    ensures failed { result ≡ Err PlayStop.Write → Rose (W.faults sink.old) (W.faults sink.new) }
    ensures count { W.faults sink.old ≤ W.faults sink.new }
{
    dead_flush();
    live_flush();
    let mut hands = empty_hands(alloc)?;
    let mut queue = QueueState::new(alloc, keeper);
    for step in script.steps.items() {
        let said = act(alloc, &mut queue, &mut hands, step)?;
        write_step(alloc, sink, step, said)?;
    }
    write_closing(alloc, sink, &queue)?;
    keeps_the_meaning(&queue);
    Ok(Played { jobs: queue })
}
