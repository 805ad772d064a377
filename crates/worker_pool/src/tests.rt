//! A loop runs to its end by slices of any length.

ghost use Rattle.std.specs.Prelude.{◌≤◌};

use crate::pool::run_pool;
use clocks::ListClock;
use cyclotron_core::QueueState;
use cyclotron_jobs::input::Answers;
use hog_jobs::HogCourse;
use hog_program::Program;
use hog_value::trace::End;
use job_keeper::NoKeeper;
use job_pool::Open;
use serde_json::Value;
use std::alloc::Global;
use std::sync::Wait;
use std::test::Fail;
use std::thread::Threads;

const LOOP: &str = "let t := 0; while (t < 3) { t := t + 1; } return t;";

/// How many runs a job of the loop takes by slices of so many operations, on two workers and a fetcher.
fn runs_of<R: Threads + Wait + Sync>(rt: &R, alloc: Global, slice: u32) -> Result<u64, Fail>
    requires { 1 ≤ slice }
{
    let Ok(program) = Program::build(alloc, LOOP.as_bytes()) else {
        return Err("the loop is a program".into());
    };
    let Ok(globals) = Value::from_str(alloc, "{}") else {
        return Err("the globals are JSON".into());
    };
    let Ok(prepared) = HogCourse::input(alloc, &program, &globals, Answers::Free) else {
        return Err("the globals are an object".into());
    };
    let input = prepared.input.copy()?;
    let mut queue = QueueState::new(alloc, NoKeeper);
    if queue.enqueue(prepared.input, 0, 0).is_err() {
        return Err("the queue has room".into());
    }
    let clock = ListClock::new(vec![in alloc; 0u64]?);
    let end = run_pool(rt, alloc, queue, 2, 1, slice, 0, &clock, &Open)?;
    match end.closed.jobs.row(0) {
        Some(row) if row.input.is_same(&input) => match &row.shown.end {
            Some(End::Done(text)) if text.bytes() == b"3".as_slice() => Ok(end.totals.ran),
            _ => Err("the loop's result is another".into()),
        },
        _ => Err("the job is another".into()),
    }
}

#[test]
fn a_loop_is_sliced(rt: HostRuntime) -> Result<(), Fail> {
    let alloc = rt.alloc();
    assert_eq!(rt; runs_of(&rt, alloc, 1)?, 35);
    assert_eq!(rt; runs_of(&rt, alloc, 1000)?, 1);
    Ok(())
}
