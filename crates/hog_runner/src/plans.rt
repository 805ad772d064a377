//! The command that makes a plan.

ghost use Rattle.std.specs.Prelude.{◌≡◌, ◌⊎◌, ◌≤◌, ◌↔◌, ◌++◌, IfOk, OnOk, IfSome, IsSome, string_bytes};
ghost use Rattle.std.specs.Fmt.{decimal};
ghost use Rattle.hog_outside.specs.Faults.{Rose};
ghost use Rattle.hog_jobs.specs.Rows.{KeepsTheMeaning};
ghost use Rattle.hog_runner.specs.Commands.{MakeOutputs, make_line, most_made};
ghost use Rattle.hog_runner.specs.Serves.{ClosesMade, Puts};

use crate::answer::{Answer, Closed, ended};
use hog_outside::Sink;
use job_keeper::Keeper;
use line_writer::write_whole;
use made_jobs::{Made, MadeCounts, MakeStop, make};
use std::alloc::{AllocError, Global};

/// Makes the plan of `n`, works on its jobs until all have ended, and writes the line of their counts.
pub(crate) fn make_plan<W: Sink, K: Keeper>(
    alloc: Global,
    n: u32,
    sink: &mut W,
    keeper: K,
) -> Answer<K>
    requires { n ≤ most_made }
    ensures output { (result.status ≡ 6) ⊎ Puts W.taken W.faults (MakeOutputs n) (MakeOutputs n)
        sink.old sink.new result.status }
    ensures closed { IsSome result.closed ↔ ((result.status ≡ 6) ⊎ (result.status ≡ 0)) }
    ensures made { result.status ≡ 0 → IfSome result.closed (λ closed.
        ClosesMade n (W.taken sink.old) (W.taken sink.new) closed.jobs.rows) }
    ensures keeper_failed { result.status ≡ 6 → IfSome result.closed (λ closed.
        Rose (K.faults keeper) (K.faults closed.jobs.keeper)) }
    ensures keeper_failed_unwritten { result.status ≡ 6 → sink.new ≡ sink.old }
    ensures meaning { IfSome result.closed (λ closed. KeepsTheMeaning closed.jobs.rows closed.jobs.history) }
    ensures count { W.faults sink.old ≤ W.faults sink.new }
{
    match make(alloc, n, keeper) {
        Ok(made) => write_made(alloc, n, made, sink),
        Err(MakeStop::Keeper(jobs)) => Answer {
            status: 6,
            closed: Some(Closed { jobs }),
        },
        Err(MakeStop::OutOfMemory) => ended(5),
    }
}

/// Writes the line of the counts of a plan whose jobs have ended.
fn write_made<W: Sink, K: Keeper>(alloc: Global, n: u32, made: Made<K>, sink: &mut W) -> Answer<K>
    ensures output { Puts W.taken W.faults (λ out. out ≡ make_line n made.counts) (λ out. out ≡ make_line n made.counts)
        sink.old sink.new result.status }
    ensures closed { IsSome result.closed ↔ (result.status ≡ 0) }
    ensures jobs { IfSome result.closed (λ closed. closed.jobs ≡ made.jobs) }
    ensures count { W.faults sink.old ≤ W.faults sink.new }
{
    let Ok(line) = make_line(alloc, n, made.counts) else {
        return ended(5);
    };
    match write_whole(sink, line.as_bytes()) {
        Ok(()) => Answer {
            status: 0,
            closed: Some(Closed { jobs: made.jobs }),
        },
        Err(_) => ended(4),
    }
}

/// The line of the counts of the plan of `n`, with its line feed.
fn make_line(alloc: Global, n: u32, counts: MadeCounts) -> Result<String, AllocError>
    ensures { IfOk result (λ line. string_bytes line ≡ make_line n counts) }
{
    let mut line = String::from_str(alloc, "make")?;
    push_count(&mut line, " ", n as u128)?;
    push_count(&mut line, " events ", counts.events as u128)?;
    push_count(&mut line, " jobs ", counts.jobs as u128)?;
    push_count(&mut line, " prints ", counts.lines.prints)?;
    push_count(&mut line, " requests ", counts.lines.requests)?;
    push_count(&mut line, " done ", counts.lines.done as u128)?;
    push_count(&mut line, " threw ", counts.lines.threw as u128)?;
    line.push('\n')?;
    Ok(line)
}

/// Adds a word and a count.
fn push_count(line: &mut String, word: &str, n: u128) -> Result<(), AllocError>
    ensures { OnOk result (string_bytes line.new ≡ string_bytes line.old ++ (word.now ++ decimal n)) }
{
    line.push_str(word)?;
    write!(line, "{n}")
}
