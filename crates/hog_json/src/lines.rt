//! The lines that a run shows, without the line feed that ends each.

ghost use Rattle.std.specs.Prelude.{◌≡◌, ◌++◌, IfOk, string_bytes};
ghost use Rattle.json.specs.Print.{quoted};
ghost use Rattle.hog_json.specs.Lines.{end_line, trace_line};

use crate::builder::quoted;
use hog_value::{End, HogText, TraceItem};
use std::alloc::{AllocError, Global};

/// The line of a print or a request.
pub fn trace_line(alloc: Global, item: &TraceItem) -> Result<HogText, AllocError>
    ensures { IfOk result (λ line. line ≡ trace_line item.now) }
{
    match item {
        TraceItem::Printed(text) => Ok(HogText::from_string(quoted_after(alloc, "print ", text)?)),
        TraceItem::Asked(request) => {
            let mut line = quoted_after(alloc, "request ", &request.url)?;
            line.push_str(" ")?;
            line.push_str(quoted(alloc, &request.options)?.as_str())?;
            Ok(HogText::from_string(line))
        }
    }
}

/// The line of an end.
pub fn end_line(alloc: Global, end: &End) -> Result<HogText, AllocError>
    ensures { IfOk result (λ line. line ≡ end_line end.now) }
{
    let line = match end {
        End::Done(text) => quoted_after(alloc, "result ", text)?,
        End::Threw(text) => quoted_after(alloc, "threw ", text)?,
        End::TurnsSpent => String::from_str(alloc, "turns spent")?,
        End::MemorySpent => String::from_str(alloc, "memory spent")?,
        End::TooDeep => String::from_str(alloc, "too deep")?,
        End::TooManyFetches => String::from_str(alloc, "too many fetches")?,
    };
    Ok(HogText::from_string(line))
}

/// A word and a quoted text.
fn quoted_after(alloc: Global, word: &str, text: &HogText) -> Result<String, AllocError>
    ensures { IfOk result (λ line. string_bytes line ≡ word.now ++ quoted text.now) }
{
    let mut line = String::from_str(alloc, word)?;
    line.push_str(quoted(alloc, text)?.as_str())?;
    Ok(line)
}
