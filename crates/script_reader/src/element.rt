//! The step that an element of a script is.

ghost use Rattle.std.specs.Prelude.{◌≡◌, ◌≤◌, IfOk, IfSome};
ghost use Rattle.serde_json.specs.Data.{depth};
ghost use Rattle.serde_json.specs.View.{view};
ghost use Rattle.script_reader.specs.Elements.{AreShallow, answer_in, back_in, beat_in, enqueue_in, flush_in, forge_in, lose_in, of_four, of_one, of_three, of_two, step_among, step_named, step_of, sweep_in, take_in, views, work_in};
ghost use Rattle.script_reader.specs.Steps.{IsInRange};

use crate::step::Step;
use crate::values::{globals_in, moment_in, number_in, priority_in, queue_in, slice_in, worker_in};
use cyclotron_jobs::input::{Answers, JobInput, Reply};
use hog_value::HogText;
use serde_json::Value;
use std::alloc::{AllocError, Global};

const MOST_JOB: u64 = 4_294_967_295;

const MOST_STATUS: u64 = 65_535;

/// An enqueue of these values. Its source is not looked at.
fn enqueue_in(
    alloc: Global,
    source: &Value,
    globals: &Value,
    priority: &Value,
    at: &Value,
) -> Result<Option<Step>, AllocError>
    requires { depth (view globals.now) ≤ 127 }
    ensures step { IfOk result
        (λ o. o ≡ enqueue_in (view source.now) (view globals.now) (view priority.now) (view at.now)) }
    ensures ranges { IfOk result (λ o. IfSome o IsInRange) }
{
    let Some(source) = source.as_str() else {
        return Ok(None);
    };
    let Some(globals) = globals_in(alloc, globals)? else {
        return Ok(None);
    };
    let Some(priority) = priority_in(priority) else {
        return Ok(None);
    };
    let Some(at) = moment_in(at) else {
        return Ok(None);
    };
    let input = JobInput {
        source: HogText::from_string(String::from_str(alloc, source)?),
        globals,
        answers: Answers::Free,
    };
    Ok(Some(Step::Enqueue {
        input,
        priority,
        at,
    }))
}

fn enqueue_step(alloc: Global, values: &[Value]) -> Result<Option<Step>, AllocError>
    requires { AreShallow values.now }
    ensures step { IfOk result (λ o. o ≡ of_four enqueue_in (views values.now)) }
    ensures ranges { IfOk result (λ o. IfSome o IsInRange) }
{
    match values {
        [source, globals, priority, at] => enqueue_in(alloc, source, globals, priority, at),
        _ => Ok(None),
    }
}

fn take_step(values: &[Value]) -> Option<Step>
    ensures step { result ≡ of_three take_in (views values.now) }
    ensures ranges { IfSome result IsInRange }
{
    match values {
        [worker, queue, moment] => Some(Step::Take {
            worker: worker_in(worker)?,
            queue: queue_in(queue)?,
            now: moment_in(moment)?,
        }),
        _ => None,
    }
}

fn beat_step(values: &[Value]) -> Option<Step>
    ensures step { result ≡ of_two beat_in (views values.now) }
    ensures ranges { IfSome result IsInRange }
{
    match values {
        [worker, moment] => Some(Step::Beat {
            worker: worker_in(worker)?,
            now: moment_in(moment)?,
        }),
        _ => None,
    }
}

fn work_step(values: &[Value]) -> Option<Step>
    ensures step { result ≡ of_two work_in (views values.now) }
    ensures ranges { IfSome result IsInRange }
{
    match values {
        [worker, slice] => Some(Step::Work {
            worker: worker_in(worker)?,
            slice: slice_in(slice)?,
        }),
        _ => None,
    }
}

/// An answer of these values.
fn answer_in(
    alloc: Global,
    worker: &Value,
    status: &Value,
    body: &Value,
) -> Result<Option<Step>, AllocError>
    requires { depth (view body.now) ≤ 127 }
    ensures step { IfOk result
        (λ o. o ≡ answer_in (view worker.now) (view status.now) (view body.now)) }
    ensures ranges { IfOk result (λ o. IfSome o IsInRange) }
{
    let Some(worker) = worker_in(worker) else {
        return Ok(None);
    };
    let Some(status) = number_in(MOST_STATUS, status) else {
        return Ok(None);
    };
    let reply = Reply::new(alloc, status as u16, body)?;
    Ok(Some(Step::Answer { worker, reply }))
}

fn answer_step(alloc: Global, values: &[Value]) -> Result<Option<Step>, AllocError>
    requires { AreShallow values.now }
    ensures step { IfOk result (λ o. o ≡ of_three answer_in (views values.now)) }
    ensures ranges { IfOk result (λ o. IfSome o IsInRange) }
{
    match values {
        [worker, status, body] => answer_in(alloc, worker, status, body),
        _ => Ok(None),
    }
}

fn flush_step(values: &[Value]) -> Option<Step>
    ensures step { result ≡ of_one flush_in (views values.now) }
    ensures ranges { IfSome result IsInRange }
{
    match values {
        [worker] => Some(Step::Flush {
            worker: worker_in(worker)?,
        }),
        _ => None,
    }
}

fn sweep_step(values: &[Value]) -> Option<Step>
    ensures step { result ≡ of_one sweep_in (views values.now) }
    ensures ranges { IfSome result IsInRange }
{
    match values {
        [moment] => Some(Step::Sweep {
            now: moment_in(moment)?,
        }),
        _ => None,
    }
}

fn lose_step(values: &[Value]) -> Option<Step>
    ensures step { result ≡ of_one lose_in (views values.now) }
    ensures ranges { IfSome result IsInRange }
{
    match values {
        [worker] => Some(Step::Lose {
            worker: worker_in(worker)?,
        }),
        _ => None,
    }
}

fn forge_step(values: &[Value]) -> Option<Step>
    ensures step { result ≡ of_three forge_in (views values.now) }
    ensures ranges { IfSome result IsInRange }
{
    match values {
        [worker, job, draw] => Some(Step::Forge {
            worker: worker_in(worker)?,
            job: number_in(MOST_JOB, job)? as u32,
            draw: moment_in(draw)?,
        }),
        _ => None,
    }
}

fn back_step(values: &[Value]) -> Option<Step>
    ensures step { result ≡ of_two back_in (views values.now) }
    ensures ranges { IfSome result IsInRange }
{
    match values {
        [worker, at] => Some(Step::Back {
            worker: worker_in(worker)?,
            at: moment_in(at)?,
        }),
        _ => None,
    }
}

/// The step of a word and the values behind it.
fn step_named(alloc: Global, word: &str, values: &[Value]) -> Result<Option<Step>, AllocError>
    requires { AreShallow values.now }
    ensures step { IfOk result (λ o. o ≡ step_named word.now (views values.now)) }
    ensures ranges { IfOk result (λ o. IfSome o IsInRange) }
{
    match word {
        "enqueue" => enqueue_step(alloc, values),
        "take" => Ok(take_step(values)),
        "beat" => Ok(beat_step(values)),
        "work" => Ok(work_step(values)),
        "answer" => answer_step(alloc, values),
        "flush" => Ok(flush_step(values)),
        "sweep" => Ok(sweep_step(values)),
        "lose" => Ok(lose_step(values)),
        "forge" => Ok(forge_step(values)),
        "back" => Ok(back_step(values)),
        _ => Ok(None),
    }
}

fn step_among(alloc: Global, values: &[Value]) -> Result<Option<Step>, AllocError>
    requires { AreShallow values.now }
    ensures step { IfOk result (λ o. o ≡ step_among (views values.now)) }
    ensures ranges { IfOk result (λ o. IfSome o IsInRange) }
{
    match values {
        [name, rest @ ..] => match name.as_str() {
            Some(word) => step_named(alloc, word, rest),
            None => Ok(None),
        },
        [] => Ok(None),
    }
}

/// The step that an element is, if it is one. Its source is not looked at.
pub(crate) fn step_of(alloc: Global, element: &Value) -> Result<Option<Step>, AllocError>
    requires { depth (view element.now) ≤ 127 }
    ensures step { IfOk result (λ o. o ≡ step_of (view element.now)) }
    ensures ranges { IfOk result (λ o. IfSome o IsInRange) }
{
    match element.as_array() {
        Some(values) => step_among(alloc, values.as_slice()),
        None => Ok(None),
    }
}
