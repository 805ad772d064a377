//! The top call: what the program does with its words, its input and its output.

ghost use Rattle.std.specs.Prelude.{◌≡◌, ◌↔◌, ◌⊎◌, ℕ, ◌+◌, ◌≤◌, List, [], Some, None, IsSome, IfSome, IsTrue};
ghost use Rattle.std.specs.Option.{ForSome};
ghost use Rattle.hog_outside.specs.Faults.{Rose};
ghost use Rattle.line_writer.specs.Added.{AddsSome, AddsSomePrefix, AddsSomeUnless};
ghost use Rattle.hog_jobs.specs.Rows.{KeepsTheMeaning};
ghost use Rattle.script_steps.specs.Headline.{DeadFlushChangesNothing, LiveFlushIsDone};
ghost use Rattle.hog_runner.specs.Commands.{command_of, has_queue, input_of, most_bytes, reads_input, Accepts, Completes, HasSmallNumber, Outputs, OutputsPart, RefusesInput};
ghost use Rattle.hog_runner.specs.Serves.{AtStatus, ClosesMade, ClosesQueue};
ghost use Rattle.hog_runner.specs.Takes.{TakesAtMost};
ghost use Rattle.hog_runner.specs.Writes.{Writes, WritesPart};
ghost use Rattle.hog_runner.specs.declared.words.Command.{Command as Asked};

use crate::answer::{Answer, ended};
use crate::plans::make_plan;
use crate::refusals::refuse;
use crate::replays::replay;
use crate::sources::run_source;
use crate::words::{Command, command_of};
use hog_outside::{Sink, Source};
use hog_program::laws::{built_or_unbuilt, program_or_none};
use hog_value::HogText;
use job_keeper::Keeper;
use script_reader::laws::script_or_none;
use script_steps::laws::{dead_flush, live_flush};
use std::alloc::Global;

/// Does what the words ask for, and answers the status of the program: 0 done, 1 the input is refused,
/// 2 the words are refused, 3 a read failed, 4 a write failed, 5 there was no memory, 6 the keeper failed. In a script a
/// fault of the keeper is a line of the output.
pub fn top_still<S: Source, W: Sink, K: Keeper>(
    alloc: Global,
    words: &[HogText],
    source: &mut S,
    sink: &mut W,
    keeper: K,
) -> Answer<K>
    ensures statuses { result.status ≤ 6 }

    // 2 comes exactly where the words are no command. Nothing is read then, nor where the command has no input.
    ensures words_refused { (result.status ≡ 2) ↔ (command_of words.now ≡ None) }
    ensures words_unread { result.status ≡ 2 → source.new ≡ source.old }
    ensures unread { ¬ (IsTrue (reads_input (command_of words.now))) → source.new ≡ source.old }
    ensures words_line { result.status ≡ 2 → (text : List ℕ)
        → AddsSomeUnless (Rose (W.faults sink.old) (W.faults sink.new)) (W.taken sink.old) (W.taken sink.new)
        (Writes words.now text 2) }

    // 3 comes only where a read failed. Nothing is written.
    ensures read_failed { result.status ≡ 3 → Rose (S.faults source.old) (S.faults source.new) }
    ensures read_failed_unwritten { result.status ≡ 3 → sink.new ≡ sink.old }

    // 1 comes where the input is refused, with the line of the cause. Where there is a cause and no
    // read failed, 1 comes, or 5.
    ensures refused_line { result.status ≡ 1 → ForSome (S.left source.old) (λ text.
        AddsSomeUnless (Rose (W.faults sink.old) (W.faults sink.new)) (W.taken sink.old) (W.taken sink.new)
        (Writes words.now text 1)) }
    ensures refused { (command : Asked) → command_of words.now ≡ Some command
        → ¬ (Rose (S.faults source.old) (S.faults source.new))
        → ForSome (S.left source.old) (λ text.
        (cause : List ℕ) → RefusesInput command text cause → (result.status ≡ 1) ⊎ (result.status ≡ 5)) }

    // 4 comes only where a write failed. A prefix of the output is written.
    ensures write_failed { result.status ≡ 4 → Rose (W.faults sink.old) (W.faults sink.new) }
    ensures write_failed_prefix { result.status ≡ 4 → ForSome (input_of (command_of words.now) (S.left source.old)) (λ text.
        AddsSomePrefix (W.taken sink.old) (W.taken sink.new) (WritesPart K.faults keeper words.now text)) }

    // 5 may come at any place. Nothing is written, or a prefix of the output.
    ensures no_memory_prefix { result.status ≡ 5 → (sink.new ≡ sink.old) ⊎ ForSome (input_of (command_of words.now) (S.left source.old)) (λ text.
        AddsSomePrefix (W.taken sink.old) (W.taken sink.new) (WritesPart K.faults keeper words.now text)) }

    // 6 comes only at `make`, and only where a call of the keeper failed. Nothing is written.
    ensures keeper_failed { result.status ≡ 6 → IfSome result.closed (λ closed.
        Rose (K.faults keeper) (K.faults closed.jobs.keeper)) }
    ensures keeper_failed_making { result.status ≡ 6 → (n : ℕ) × (command_of words.now ≡ Some (Command.Make n)) }
    ensures keeper_failed_unwritten { result.status ≡ 6 → sink.new ≡ sink.old }

    // At 0 the input is read to its end, where the command has one, and the output is written.
    ensures done_read { result.status ≡ 0 → IsTrue (reads_input (command_of words.now))
        → ForSome (S.left source.old) (λ _. S.left source.new ≡ Some []) }
    ensures done_output { result.status ≡ 0 → ForSome (input_of (command_of words.now) (S.left source.old)) (λ text.
        AddsSome (W.taken sink.old) (W.taken sink.new) (Writes words.now text 0)) }

    // A queue is closed exactly at 6, and at 0 where the command works on one.
    ensures closed { IsSome result.closed
        ↔ ((result.status ≡ 6) ⊎ ((result.status ≡ 0) × IsTrue (has_queue (command_of words.now)))) }

    // The play of a script's steps leads to that queue, also where the source doesn't tell its bytes, and no more faults are
    // said than its keeper's count rose.
    ensures played { command_of words.now ≡ Some Command.Replay → IfSome result.closed (λ closed.
        ClosesQueue (S.left source.old) (W.taken sink.old) (W.taken sink.new)
        (K.faults keeper) (K.faults closed.jobs.keeper) closed.jobs.rows closed.jobs.history) }

    // The jobs of a made plan are in that queue, in order, and all are completed. Their counts were written.
    ensures made { (n : ℕ) → command_of words.now ≡ Some (Command.Make n) → result.status ≡ 0 → IfSome result.closed (λ closed.
        ClosesMade n (W.taken sink.old) (W.taken sink.new) closed.jobs.rows) }

    // Whatever the script or the plan was: each job's committed trace is a beginning of the meaning of its source, on its committed
    // replies; a completed job's result, prints and requests are that meaning; each job is on course, and the history
    // is legal.
    ensures meaning { IfSome result.closed (λ closed. KeepsTheMeaning closed.jobs.rows closed.jobs.history) }

    // Wherever a flush comes among the steps: under a lock that isn't live it changes nothing, and under the live one,
    // begun at the committed state, it is done, or a keeper's fault is said.
    ensures dead_flush { DeadFlushChangesNothing }
    ensures live_flush { LiveFlushIsDone }

    // Where the command takes its input and no stream failed, 0 comes, or 5, and at `make` also 6.
    ensures complete { (command : Asked) → command_of words.now ≡ Some command
        → ¬ (Rose (S.faults source.old) (S.faults source.new))
        → ¬ (Rose (W.faults sink.old) (W.faults sink.new))
        → ForSome (input_of (Some command) (S.left source.old)) (λ text.
        Accepts command text → Completes command result.status) }

    // At most 16,777,217 bytes are read. Counts never fall.
    ensures bounded { TakesAtMost (most_bytes + 1) (S.left source.old) (S.left source.new) }
    ensures source_count { S.faults source.old ≤ S.faults source.new }
    ensures sink_count { W.faults sink.old ≤ W.faults sink.new }
{
    dead_flush();
    live_flush();
    program_or_none();
    built_or_unbuilt();
    script_or_none();
    let Some(command) = command_of(words) else {
        refuse(sink, b"refused: words\n");
        return ended(2);
    };
    run_command(alloc, command, source, sink, keeper)
}

/// Does what a command asks for.
fn run_command<S: Source, W: Sink, K: Keeper>(
    alloc: Global,
    command: Command,
    source: &mut S,
    sink: &mut W,
    keeper: K,
) -> Answer<K>
    requires { HasSmallNumber command }
    ensures at { (result.status ≡ 6) ⊎ AtStatus (λ source. input_of (Some command) (S.left source)) S.faults W.taken W.faults
        (RefusesInput command) (Outputs command) (OutputsPart K.faults keeper command)
        source.old source.new sink.old sink.new result.status }
    ensures keeper_failed { result.status ≡ 6 → IfSome result.closed (λ closed.
        Rose (K.faults keeper) (K.faults closed.jobs.keeper)) }
    ensures keeper_failed_making { result.status ≡ 6 → (n : ℕ) × (command ≡ Command.Make n) }
    ensures keeper_failed_unwritten { result.status ≡ 6 → sink.new ≡ sink.old }
    ensures unread { ¬ (IsTrue (reads_input (Some command))) → source.new ≡ source.old }
    ensures end { result.status ≡ 0 → IsTrue (reads_input (Some command))
        → ForSome (S.left source.old) (λ _. S.left source.new ≡ Some []) }
    ensures bounded { TakesAtMost (most_bytes + 1) (S.left source.old) (S.left source.new) }
    ensures source_count { S.faults source.old ≤ S.faults source.new }
    ensures sink_count { W.faults sink.old ≤ W.faults sink.new }
    ensures closed { IsSome result.closed
        ↔ ((result.status ≡ 6) ⊎ ((result.status ≡ 0) × IsTrue (has_queue (Some command)))) }
    ensures played { command ≡ Command.Replay → IfSome result.closed (λ closed.
        ClosesQueue (S.left source.old) (W.taken sink.old) (W.taken sink.new)
        (K.faults keeper) (K.faults closed.jobs.keeper) closed.jobs.rows closed.jobs.history) }
    ensures made { (n : ℕ) → command ≡ Command.Make n → result.status ≡ 0 → IfSome result.closed (λ closed.
        ClosesMade n (W.taken sink.old) (W.taken sink.new) closed.jobs.rows) }
    ensures meaning { IfSome result.closed (λ closed. KeepsTheMeaning closed.jobs.rows closed.jobs.history) }
{
    match command {
        Command::Source(command) => ended(run_source(alloc, command, source, sink)),
        Command::Replay => replay(alloc, source, sink, keeper),
        Command::Make(n) => make_plan(alloc, n, sink, keeper),
    }
}

#[cfg(test)]
mod tests;
