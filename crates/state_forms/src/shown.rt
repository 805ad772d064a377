//! What a run has shown, and its end, as JSON.

ghost use Rattle.std.specs.Prelude.{◌≡◌, map};
ghost use Rattle.serde_json.specs.View.{view};
ghost use Rattle.state_forms.specs.Shapes.{Gives};
ghost use Rattle.state_forms.specs.Shown.{item_by, end_word, end_by, end_in_list};

use crate::forms::{Json, array_of, list_value, string, text};
use crate::stop::ReadStop;
use hog_value::{End, HogText, Request, TraceItem};
use serde_json::Value;
use std::alloc::{AllocError, Global};
use std::convert::AsStr;

/// An item by its letter.
fn read_item_by(alloc: Global, tag: &str, rest: &[Value]) -> Result<TraceItem, ReadStop>
    ensures { Gives (λ i. i) result (item_by tag.now (map view rest.now)) }
{
    match rest {
        [d] => {
            if tag == "p" {
                Ok(TraceItem::Printed(text(alloc, d)?))
            } else {
                Err(ReadStop::Refused)
            }
        }
        [d, e] => {
            if tag == "r" {
                let url = text(alloc, d)?;
                let options = text(alloc, e)?;
                Ok(TraceItem::Asked(Request { url, options }))
            } else {
                Err(ReadStop::Refused)
            }
        }
        _ => Err(ReadStop::Refused),
    }
}

impl Json for TraceItem {
    ghost use Rattle.state_forms.specs.Shown.{item_in, item_data};

    ghost written = { item_data };

    ghost reads = { item_in };

    ghost fits = { λ _. Unit {0} };

    fn read(alloc: Global, v: &Value) -> Result<TraceItem, ReadStop> {
        match array_of(v)? {
            [d, rest @ ..] => match d.as_str() {
                Some(tag) => read_item_by(alloc, tag, rest),
                None => Err(ReadStop::Refused),
            },
            _ => Err(ReadStop::Refused),
        }
    }

    fn write(&self, alloc: Global) -> Result<Value, AllocError> {
        match self {
            TraceItem::Printed(t) => {
                let tag = string(alloc, "p")?;
                let held = string(alloc, t.as_str())?;
                Ok(list_value(vec![in alloc; tag, held]?))
            }
            TraceItem::Asked(request) => {
                let tag = string(alloc, "r")?;
                let url = string(alloc, request.url.as_str())?;
                let options = string(alloc, request.options.as_str())?;
                Ok(list_value(vec![in alloc; tag, url, options]?))
            }
        }
    }
}

/// An end that has no text.
fn read_end_word(s: &str) -> Result<End, ReadStop>
    ensures { Gives (λ e. e) result (end_word s.now) }
{
    if s == "turns" {
        Ok(End::TurnsSpent)
    } else if s == "memory" {
        Ok(End::MemorySpent)
    } else if s == "deep" {
        Ok(End::TooDeep)
    } else if s == "fetches" {
        Ok(End::TooManyFetches)
    } else {
        Err(ReadStop::Refused)
    }
}

/// An end with its text.
fn end_by(tag: &str, text: HogText) -> Result<End, ReadStop>
    ensures { Gives (λ e. e) result (end_by tag.now text) }
{
    if tag == "done" {
        Ok(End::Done(text))
    } else if tag == "threw" {
        Ok(End::Threw(text))
    } else {
        Err(ReadStop::Refused)
    }
}

fn read_end_list(alloc: Global, items: &[Value]) -> Result<End, ReadStop>
    ensures { Gives (λ e. e) result (end_in_list (map view items.now)) }
{
    match items {
        [k, d] => {
            let tag = text(alloc, k)?;
            let held = text(alloc, d)?;
            end_by(tag.as_str(), held)
        }
        _ => Err(ReadStop::Refused),
    }
}

impl Json for End {
    ghost use Rattle.state_forms.specs.Shown.{end_in, end_data};

    ghost written = { end_data };

    ghost reads = { end_in };

    ghost fits = { λ _. Unit {0} };

    fn read(alloc: Global, v: &Value) -> Result<End, ReadStop> {
        match v.as_str() {
            Some(s) => read_end_word(s),
            None => read_end_list(alloc, array_of(v)?),
        }
    }

    fn write(&self, alloc: Global) -> Result<Value, AllocError> {
        match self {
            End::Done(t) => {
                let tag = string(alloc, "done")?;
                let held = string(alloc, t.as_str())?;
                Ok(list_value(vec![in alloc; tag, held]?))
            }
            End::Threw(t) => {
                let tag = string(alloc, "threw")?;
                let held = string(alloc, t.as_str())?;
                Ok(list_value(vec![in alloc; tag, held]?))
            }
            End::TurnsSpent => string(alloc, "turns"),
            End::MemorySpent => string(alloc, "memory"),
            End::TooDeep => string(alloc, "deep"),
            End::TooManyFetches => string(alloc, "fetches"),
        }
    }
}
