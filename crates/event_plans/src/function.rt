//! Functions of plans.

ghost use Rattle.std.specs.Prelude.{◌≡◌, ◌≤◌, IfOk, IfSome, suc, option_map};
ghost use Rattle.serde_json.specs.Data.{depth};
ghost use Rattle.serde_json.specs.View.{view};
ghost use Rattle.hog_json.specs.Nulled.{count_nulled};
ghost use Rattle.event_plans.specs.Event.{size_of};
ghost use Rattle.event_plans.specs.Function.{answer_of, answers_in, filter_in, function_with, inputs_in, pattern_in, priority_in, status_in, texts_in};
ghost use Rattle.event_plans.specs.Members.{AreWithin, read_all, views};

use crate::member::{elements, member, owned, text_at};
use cyclotron_jobs::{Replies, Reply};
use hog_json::nulled_text;
use hog_value::HogText;
use serde_json::{Map, Value};
use std::alloc::{AllocError, Global};

/// The most bytes of a pattern.
const MOST_PATTERN: usize = 256;

const MOST_STATUS: u64 = 65_535;

/// A function of a plan: its name, the texts of its program and of its filter, the pattern of the events that it takes, its
/// inputs, the priority of its jobs, and the answers to their requests; and how many bytes its inputs have as they are
/// kept, and how many of their numbers become null there.
#[derive(Drop)]
pub struct Function {
    pub name: HogText,
    pub source: HogText,
    pub filter: Option<HogText>,
    pub pattern: Option<HogText>,
    pub inputs: Value,
    pub priority: i16,
    pub answers: Replies,
    pub size: usize,
    pub nulled: u32,
    ghost has_size: { size ≡ size_of (view inputs) },
    ghost has_nulled: { nulled ≡ count_nulled (view inputs) },
    ghost is_nested: { depth (view inputs) ≤ 126 },
}

fn filter_in(alloc: Global, value: &Value) -> Result<Option<Option<HogText>>, AllocError>
    ensures { IfOk result (λ o. o ≡ filter_in (view value.now)) }
{
    let Some(filter) = member(value, "filter") else {
        return Ok(Some(None));
    };
    let Some(text) = filter.as_str() else {
        return Ok(None);
    };
    Ok(Some(Some(owned(alloc, text)?)))
}

fn pattern_in(alloc: Global, value: &Value) -> Result<Option<Option<HogText>>, AllocError>
    ensures { IfOk result (λ o. o ≡ pattern_in (view value.now)) }
{
    let Some(pattern) = member(value, "pattern") else {
        return Ok(Some(None));
    };
    let Some(text) = pattern.as_str() else {
        return Ok(None);
    };
    if text.len() <= MOST_PATTERN {
        Ok(Some(Some(owned(alloc, text)?)))
    } else {
        Ok(None)
    }
}

/// A copy of the inputs.
fn inputs_in(alloc: Global, value: &Value) -> Result<Option<Value>, AllocError>
    ensures inputs { IfOk result (λ o. option_map view o ≡ inputs_in (view value.now)) }
    ensures nested { IfOk result (λ o. IfSome o (λ v. depth (view v) ≤ suc (depth (view value.now)))) }
{
    let Some(inputs) = member(value, "inputs") else {
        return Ok(Some(Value::Object(Map::new(alloc))));
    };
    if inputs.is_object() {
        Ok(Some(inputs.clone()?))
    } else {
        Ok(None)
    }
}

fn priority_in(value: &Value) -> Option<i16>
    ensures { result ≡ priority_in (view value.now) }
{
    let Some(priority) = member(value, "priority") else {
        return Some(0);
    };
    match priority.as_i64() {
        Some(n) => {
            if -32_768 <= n && n <= 32_767 {
                Some(n as i16)
            } else {
                None
            }
        }
        None => None,
    }
}

fn status_in(value: &Value) -> Option<u16>
    ensures { result ≡ status_in (view value.now) }
{
    match member(value, "status")?.as_u64() {
        Some(n) => {
            if n <= MOST_STATUS {
                Some(n as u16)
            } else {
                None
            }
        }
        None => None,
    }
}

/// The answer that a value is.
fn answer_of(alloc: Global, value: &Value) -> Result<Option<Reply>, AllocError>
    requires { depth (view value.now) ≤ 127 }
    ensures { IfOk result (λ o. o ≡ answer_of (view value.now)) }
{
    let Some(status) = status_in(value) else {
        return Ok(None);
    };
    let reply = match member(value, "body") {
        Some(body) => Reply::new(alloc, status, body)?,
        None => Reply::new(alloc, status, &Value::Null)?,
    };
    Ok(Some(reply))
}

/// The answers that values are.
fn answers_of(alloc: Global, values: &[Value]) -> Result<Option<Replies>, AllocError>
    requires { AreWithin 128 values.now }
    ensures { IfOk result (λ o. o ≡ read_all answer_of (views values.now)) }
{
    let mut answers = Vec::new(alloc);
    for value in values {
        let Some(answer) = answer_of(alloc, value)? else {
            return Ok(None);
        };
        answers.push(answer)?;
    }
    Ok(Some(Replies::new(answers)))
}

fn answers_in(alloc: Global, value: &Value) -> Result<Option<Replies>, AllocError>
    requires { depth (view value.now) ≤ 127 }
    ensures { IfOk result (λ o. o ≡ answers_in (view value.now)) }
{
    let Some(answers) = member(value, "answers") else {
        return Ok(Some(Replies::new(Vec::new(alloc))));
    };
    match elements(answers) {
        Some(values) => answers_of(alloc, values),
        None => Ok(None),
    }
}

/// The texts of a function.
#[derive(Drop)]
struct Texts {
    name: HogText,
    source: HogText,
    filter: Option<HogText>,
    pattern: Option<HogText>,
}

fn texts_in(alloc: Global, value: &Value) -> Result<Option<Texts>, AllocError>
    ensures { IfOk result (λ o. o ≡ texts_in (view value.now)) }
{
    let Some(name) = text_at(value, "name") else {
        return Ok(None);
    };
    let Some(source) = text_at(value, "source") else {
        return Ok(None);
    };
    let Some(filter) = filter_in(alloc, value)? else {
        return Ok(None);
    };
    let Some(pattern) = pattern_in(alloc, value)? else {
        return Ok(None);
    };
    Ok(Some(Texts {
        name: owned(alloc, name)?,
        source: owned(alloc, source)?,
        filter,
        pattern,
    }))
}

impl Function {
    ghost use Rattle.event_plans.specs.Drafts.{function_of};
    ghost use Rattle.event_plans.specs.Function.{function_in};

    /// The function that a value is, if it is one. No text of it is looked into.
    pub(crate) fn read(alloc: Global, value: &Value) -> Result<Option<Function>, AllocError>
        requires { depth (view value.now) ≤ 125 }
        ensures { IfOk result (λ o. option_map function_of o ≡ function_in (view value.now)) }
    {
        let Some(texts) = texts_in(alloc, value)? else {
            return Ok(None);
        };
        let Some(inputs) = inputs_in(alloc, value)? else {
            return Ok(None);
        };
        let Some(priority) = priority_in(value) else {
            return Ok(None);
        };
        let Some(answers) = answers_in(alloc, value)? else {
            return Ok(None);
        };
        Ok(Some(Function::kept(alloc, texts, inputs, priority, answers)?))
    }

    /// The function of these parts.
    fn kept(
        alloc: Global,
        texts: Texts,
        inputs: Value,
        priority: i16,
        answers: Replies,
    ) -> Result<Function, AllocError>
        requires { depth (view inputs) ≤ 126 }
        ensures { IfOk result (λ f. function_of f ≡ function_with texts (view inputs) priority answers) }
    {
        let kept = nulled_text(alloc, &inputs)?;
        let size = kept.text.bytes().len();
        Ok(Function {
            name: texts.name,
            source: texts.source,
            filter: texts.filter,
            pattern: texts.pattern,
            inputs,
            priority,
            answers,
            size,
            nulled: kept.nulled,
        })
    }
}
