//! The values of steps.

ghost use Rattle.std.specs.Prelude.{◌≡◌, ◌≤◌, IfOk, IfSome};
ghost use Rattle.serde_json.specs.Data.{depth};
ghost use Rattle.serde_json.specs.View.{view};
ghost use Rattle.script_reader.specs.Elements.{globals_in, moment_in, most_moment, most_slice, most_worker, number_in, priority_in, queue_in, queue_named, slice_in, worker_in};
ghost use Rattle.hog_jobs.specs.Inputs.{IsGlobals};

use cyclotron_jobs::row::QueueName;
use hog_json::{GlobalsStop, globals_text};
use hog_value::HogText;
use serde_json::Value;
use std::alloc::{AllocError, Global};

const MOST_WORKER: u64 = 15;

const MOST_MOMENT: u64 = 9_223_372_036_854_775_807;

const MOST_SLICE: u64 = 1_000_000;

const MOST_GLOBALS: usize = 65_600;

/// A whole number from 0 to a greatest one.
pub(crate) fn number_in(most: u64, v: &Value) -> Option<u64>
    ensures value { result ≡ number_in most (view v.now) }
    ensures within { IfSome result (λ n. n ≤ most) }
{
    match v.as_u64() {
        Some(n) => { if n <= most { Some(n) } else { None } }
        None => None,
    }
}

pub(crate) fn worker_in(v: &Value) -> Option<u8>
    ensures value { result ≡ worker_in (view v.now) }
    ensures within { IfSome result (λ n. n ≤ most_worker) }
{
    match number_in(MOST_WORKER, v) {
        Some(n) => Some(n as u8),
        None => None,
    }
}

/// A moment, or a draw.
pub(crate) fn moment_in(v: &Value) -> Option<u64>
    ensures value { result ≡ moment_in (view v.now) }
    ensures within { IfSome result (λ n. n ≤ most_moment) }
{
    number_in(MOST_MOMENT, v)
}

pub(crate) fn slice_in(v: &Value) -> Option<u32>
    ensures value { result ≡ slice_in (view v.now) }
    ensures some { IfSome result (λ n. 1 ≤ n) }
    ensures within { IfSome result (λ n. n ≤ most_slice) }
{
    match number_in(MOST_SLICE, v) {
        Some(n) => { if 1 <= n { Some(n as u32) } else { None } }
        None => None,
    }
}

/// A whole number from -32,768 to 32,767.
pub(crate) fn priority_in(v: &Value) -> Option<i16>
    ensures { result ≡ priority_in (view v.now) }
{
    match v.as_i64() {
        Some(n) => {
            if -32_768 <= n && n <= 32_767 {
                Some(n as i16)
            } else {
                None
            }
        }
        None => None,
    }
}

fn queue_named(word: &str) -> Option<QueueName>
    ensures { result ≡ queue_named word.now }
{
    match word {
        "hog" => Some(QueueName::Hog),
        "fetch" => Some(QueueName::Fetch),
        _ => None,
    }
}

pub(crate) fn queue_in(v: &Value) -> Option<QueueName>
    ensures { result ≡ queue_in (view v.now) }
{
    match v.as_str() {
        Some(word) => queue_named(word),
        None => None,
    }
}

/// The kept text of an object, where it isn't too long.
pub(crate) fn globals_in(alloc: Global, v: &Value) -> Result<Option<HogText>, AllocError>
    requires { depth (view v.now) ≤ 127 }
    ensures value { IfOk result (λ o. o ≡ globals_in (view v.now)) }
    ensures kept { IfOk result (λ o. IfSome o IsGlobals) }
{
    match globals_text(alloc, v) {
        Ok(globals) => {
            if globals.text.bytes().len() <= MOST_GLOBALS {
                Ok(Some(globals.text))
            } else {
                Ok(None)
            }
        }
        Err(GlobalsStop::NotAnObject) => Ok(None),
        Err(GlobalsStop::OutOfMemory) => Err(AllocError),
    }
}
