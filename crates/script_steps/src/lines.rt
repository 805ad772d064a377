//! The lines of a play.

ghost use Rattle.std.specs.Prelude.{◌≡◌, ◌≤◌, ◌++◌, IfOk, OnOk, flat_map, string_bytes};
ghost use Rattle.std.specs.Fmt.{decimal};
ghost use Rattle.hog_json.specs.Lines.{ended};
ghost use Rattle.hog_outside.specs.Faults.{Rose};
ghost use Rattle.line_writer.specs.Added.{AddsBytes, AddsPrefix};
ghost use Rattle.lock_ids.specs.Lock.{id_text};
ghost use Rattle.script_steps.specs.Lines.{backs_text, closing_lines, count_of, counts_line, job_line, kind_of, lock_text, poisoned_line, poisoned_lines, row_lines, said_text, state_text, step_line, stop_text, word_of};

use crate::said::Said;
use cyclotron_core::queue::QueueState;
use cyclotron_jobs::entry::Entry;
use cyclotron_jobs::refused::LeaseStop;
use cyclotron_jobs::row::{JobState, QueueName, Row};
use hog_jobs::HogCourse;
use hog_outside::Sink;
use job_keeper::keeper::Keeper;
use line_writer::{OutputStop, write_shown, write_whole};
use lock_ids::lock::LockId;
use script_reader::Step;
use std::alloc::{AllocError, Global};
use std::convert::AsStr;

/// The word of a step.
fn word_of(step: &Step) -> &'static str
    ensures { result.now ≡ word_of step.now }
{
    match step {
        Step::Enqueue { .. } => "enqueue ",
        Step::Take { .. } => "take ",
        Step::Beat { .. } => "beat ",
        Step::Work { .. } => "work ",
        Step::Answer { .. } => "answer ",
        Step::Flush { .. } => "flush ",
        Step::Sweep { .. } => "sweep ",
        Step::Lose { .. } => "lose ",
        Step::Forge { .. } => "forge ",
        Step::Back { .. } => "back ",
    }
}

fn push_lock(alloc: Global, line: &mut String, lock: LockId) -> Result<(), AllocError>
    ensures { OnOk result (string_bytes line.new ≡ string_bytes line.old ++ id_text lock) }
{
    let text = lock.text(alloc)?;
    line.push_str(text.as_str())
}

/// Adds a word and a number.
fn push_number(line: &mut String, word: &str, n: u64) -> Result<(), AllocError>
    ensures { OnOk result (string_bytes line.new ≡ string_bytes line.old ++ (word.now ++ decimal n)) }
{
    line.push_str(word)?;
    write!(line, "{n}")
}

fn push_taken(alloc: Global, line: &mut String, lock: LockId) -> Result<(), AllocError>
    ensures { OnOk result (string_bytes line.new ≡ string_bytes line.old ++ said_text (Said.Taken lock)) }
{
    write!(line, "{} ", lock.job)?;
    push_lock(alloc, line, lock)
}

fn push_stop(alloc: Global, line: &mut String, stop: LeaseStop) -> Result<(), AllocError>
    ensures { OnOk result (string_bytes line.new ≡ string_bytes line.old ++ stop_text stop) }
{
    match stop {
        LeaseStop::UnknownJob => line.push_str("unknown job"),
        LeaseStop::WrongLock { live: None } => line.push_str("wrong lock none"),
        LeaseStop::WrongLock { live: Some(lock) } => {
            line.push_str("wrong lock ")?;
            push_lock(alloc, line, lock)
        }
        LeaseStop::NotThisRun => line.push_str("not this run"),
        LeaseStop::OutOfMemory => Ok(()),
        LeaseStop::Keeper => line.push_str("keeper"),
    }
}

fn push_said(alloc: Global, line: &mut String, said: Said) -> Result<(), AllocError>
    ensures { OnOk result (string_bytes line.new ≡ string_bytes line.old ++ said_text said) }
{
    match said {
        Said::Job(job) => write!(line, "{job}"),
        Said::Full => line.push_str("full"),
        Said::Taken(lock) => push_taken(alloc, line, lock),
        Said::Busy => line.push_str("busy"),
        Said::Nothing => line.push_str("none"),
        Said::Idle => line.push_str("idle"),
        Said::Fine => line.push_str("ok"),
        Said::Sliced(ops) => push_number(line, "sliced ", ops),
        Said::Asks(ops) => push_number(line, "asks ", ops),
        Said::Ended(ops) => push_number(line, "ended ", ops),
        Said::Answered(status) => write!(line, "{status}"),
        Said::Poisoned(job) => write!(line, "{job} poisoned"),
        Said::Refused(stop) => push_stop(alloc, line, stop),
        Said::Keeper => line.push_str("keeper"),
    }
}

/// The line of a step, with its line feed.
fn line_of(alloc: Global, step: &Step, said: Said) -> Result<String, AllocError>
    ensures { IfOk result (λ line. string_bytes line ≡ ended (step_line step.now said)) }
{
    let mut line = String::from_str(alloc, word_of(step))?;
    push_said(alloc, &mut line, said)?;
    line.push('\n')?;
    Ok(line)
}

/// Writes the line of a step.
pub(crate) fn write_step<W: Sink>(
    alloc: Global,
    sink: &mut W,
    step: &Step,
    said: Said,
) -> Result<(), OutputStop>
    ensures ok { OnOk result (AddsBytes (W.taken sink.old) (W.taken sink.new) (ended (step_line step.now said))) }
    ensures prefix { AddsPrefix (W.taken sink.old) (W.taken sink.new) (ended (step_line step.now said)) }
    ensures failed { result ≡ Err OutputStop.Failed
        → Rose (W.faults sink.old) (W.faults sink.new) }
    ensures count { W.faults sink.old ≤ W.faults sink.new }
{
    let line = line_of(alloc, step, said)?;
    write_whole(sink, line.as_bytes())?;
    Ok(())
}

fn state_of(state: JobState, queue: QueueName) -> &'static str
    ensures { result.now ≡ state_text state queue }
{
    match state {
        JobState::Available => match queue {
            QueueName::Hog => "available hog",
            QueueName::Fetch => "available fetch",
        },
        JobState::Running => match queue {
            QueueName::Hog => "running hog",
            QueueName::Fetch => "running fetch",
        },
        JobState::Completed => "completed",
        JobState::Failed => "failed",
    }
}

/// The line of a job, with its line feed.
fn job_line(alloc: Global, row: &Row) -> Result<String, AllocError>
    ensures { IfOk result (λ line. string_bytes line ≡ ended (job_line row.now.job row.now.state row.now.queue)) }
{
    let mut line = String::new(alloc);
    push_number(&mut line, "job ", row.job as u64)?;
    line.push(' ')?;
    line.push_str(state_of(row.state, row.queue))?;
    line.push('\n')?;
    Ok(line)
}

/// The line of a job's sweeps, with its line feed.
fn poisoned_line(alloc: Global, sweeps: &[(u64, u64)]) -> Result<String, AllocError>
    ensures { IfOk result (λ line. string_bytes line ≡ ended (poisoned_line sweeps.now)) }
{
    let mut line = String::from_str(alloc, "poisoned")?;
    for &(at, beat) in sweeps {
        push_number(&mut line, " ", at)?;
        push_number(&mut line, "/", beat)?;
    }
    line.push('\n')?;
    Ok(line)
}

/// Writes the line of a job's sweeps, where it failed.
fn write_poisoned<W: Sink>(alloc: Global, sink: &mut W, row: &Row) -> Result<(), OutputStop>
    ensures ok { OnOk result (AddsBytes (W.taken sink.old) (W.taken sink.new)
        (poisoned_lines row.now.state row.now.sweeps)) }
    ensures prefix { AddsPrefix (W.taken sink.old) (W.taken sink.new)
        (poisoned_lines row.now.state row.now.sweeps) }
    ensures failed { result ≡ Err OutputStop.Failed
        → Rose (W.faults sink.old) (W.faults sink.new) }
    ensures count { W.faults sink.old ≤ W.faults sink.new }
{
    match row.state {
        JobState::Failed => {
            let line = poisoned_line(alloc, row.sweeps.items())?;
            write_whole(sink, line.as_bytes())?;
            Ok(())
        }
        JobState::Available => Ok(()),
        JobState::Running => Ok(()),
        JobState::Completed => Ok(()),
    }
}

/// Writes the lines of a job.
fn write_row<W: Sink>(alloc: Global, sink: &mut W, row: &Row) -> Result<(), OutputStop>
    ensures ok { OnOk result (AddsBytes (W.taken sink.old) (W.taken sink.new) (row_lines row.now)) }
    ensures prefix { AddsPrefix (W.taken sink.old) (W.taken sink.new) (row_lines row.now) }
    ensures failed { result ≡ Err OutputStop.Failed
        → Rose (W.faults sink.old) (W.faults sink.new) }
    ensures count { W.faults sink.old ≤ W.faults sink.new }
{
    let line = job_line(alloc, row)?;
    write_whole(sink, line.as_bytes())?;
    write_shown(alloc, sink, &row.shown)?;
    write_poisoned(alloc, sink, row)
}

/// Writes the lines of all jobs in order.
fn write_rows<W: Sink, K: Keeper>(
    alloc: Global,
    sink: &mut W,
    queue: &QueueState<HogCourse, K>,
) -> Result<(), OutputStop>
    ensures ok { OnOk result (AddsBytes (W.taken sink.old) (W.taken sink.new) (flat_map row_lines queue.now.rows)) }
    ensures prefix { AddsPrefix (W.taken sink.old) (W.taken sink.new) (flat_map row_lines queue.now.rows) }
    ensures failed { result ≡ Err OutputStop.Failed
        → Rose (W.faults sink.old) (W.faults sink.new) }
    ensures count { W.faults sink.old ≤ W.faults sink.new }
{
    let _ = queue.history();
    let mut job = 0;
    while let Some(row) = queue.row(job) {
        write_row(alloc, sink, row)?;
        job += 1;
    }
    Ok(())
}

/// The place of an entry's kind in the last line.
fn kind_of(entry: &Entry) -> u8
    ensures { result ≡ kind_of entry.now }
{
    match entry {
        Entry::Queued { .. } => 0,
        Entry::Taken { .. } => 1,
        Entry::Beat { .. } => 2,
        Entry::Ran { .. } => 3,
        Entry::Replied { .. } => 4,
        Entry::Swept { .. } => 5,
        Entry::PutBack { .. } => 6,
    }
}

/// How many entries are of a kind.
fn count_of(history: &[Entry], kind: u8) -> u64
    ensures { result ≡ count_of kind history.now }
{
    let mut count = 0;
    for entry in history {
        if kind_of(entry) == kind {
            count += 1;
        }
    }
    count
}

/// Adds a word and how many entries are of a kind.
fn push_count(line: &mut String, word: &str, history: &[Entry], kind: u8) -> Result<(), AllocError>
    ensures { OnOk result (string_bytes line.new
        ≡ string_bytes line.old ++ (word.now ++ decimal (count_of kind history.now))) }
{
    push_number(line, word, count_of(history, kind))
}

/// Adds how many put-backs there were, where there were some.
fn push_backs(line: &mut String, history: &[Entry]) -> Result<(), AllocError>
    ensures { OnOk result (string_bytes line.new
        ≡ string_bytes line.old ++ backs_text (count_of 6 history.now)) }
{
    let backs = count_of(history, 6);
    if 0 < backs {
        push_number(line, " back ", backs)
    } else {
        Ok(())
    }
}

/// The last line, with its line feed.
fn counts_line(alloc: Global, history: &[Entry]) -> Result<String, AllocError>
    ensures { IfOk result (λ line. string_bytes line ≡ ended (counts_line history.now)) }
{
    let mut line = String::from_str(alloc, "entries")?;
    push_count(&mut line, " queued ", history, 0)?;
    push_count(&mut line, " taken ", history, 1)?;
    push_count(&mut line, " beat ", history, 2)?;
    push_count(&mut line, " ran ", history, 3)?;
    push_count(&mut line, " replied ", history, 4)?;
    push_count(&mut line, " swept ", history, 5)?;
    push_backs(&mut line, history)?;
    line.push('\n')?;
    Ok(line)
}

/// Writes the lines after the steps: those of all jobs, and then the counts of entries.
pub(crate) fn write_closing<W: Sink, K: Keeper>(
    alloc: Global,
    sink: &mut W,
    queue: &QueueState<HogCourse, K>,
) -> Result<(), OutputStop>
    ensures ok { OnOk result (AddsBytes (W.taken sink.old) (W.taken sink.new)
        (closing_lines queue.now.rows queue.now.history)) }
    ensures prefix { AddsPrefix (W.taken sink.old) (W.taken sink.new)
        (closing_lines queue.now.rows queue.now.history) }
    ensures failed { result ≡ Err OutputStop.Failed
        → Rose (W.faults sink.old) (W.faults sink.new) }
    ensures count { W.faults sink.old ≤ W.faults sink.new }
{
    write_rows(alloc, sink, queue)?;
    let line = counts_line(alloc, queue.history())?;
    write_whole(sink, line.as_bytes())?;
    Ok(())
}
