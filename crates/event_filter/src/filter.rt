//! Verdicts of filters.

ghost use Rattle.std.specs.Prelude.{◌≡◌, true, false, IfOk};
ghost use Rattle.hogvm.specs.Calls.{is_globals};
ghost use Rattle.event_filter.specs.Verdicts.{Says, verdict_at, verdict_by};

use crate::rest::rest;
use hog_json::end_line;
use hog_program::Program;
use hog_value::{End, HogText};
use hogvm::StartStop;
use std::alloc::{AllocError, Global};

/// What a filter says.
#[derive(Drop)]
pub enum Verdict {
    /// Its result is `true`.
    Yes,
    /// It has another result.
    No,
    /// It has none: it throws, waits or is spent. This is the line of its end.
    Broken(HogText),
}

/// Why a filter is not asked.
#[derive(Clone, Copy, Debug, PartialEq, Eq)]
pub enum FilterStop {
    /// The text of the globals isn't that of a JSON object whose numbers are whole numbers of 64 bits.
    NotAnObject,
    OutOfMemory,
}

impl From<AllocError> for FilterStop {
    ghost use Rattle.std.specs.Prelude.{◌≡◌};
    ghost use Rattle.event_filter.specs.declared.filter.FilterStop.TheVariants.{OutOfMemory};

    ghost from_gives = { λ _ e. e ≡ OutOfMemory };

    fn from(_want: AllocError) -> FilterStop {
        FilterStop::OutOfMemory
    }
}

impl From<StartStop> for FilterStop {
    ghost use Rattle.std.specs.Prelude.{◌≡◌};
    ghost use Rattle.event_filter.specs.Verdicts.{stop_of};

    ghost from_gives = { λ stop e. e ≡ stop_of stop };

    fn from(stop: StartStop) -> FilterStop {
        match stop {
            StartStop::NotAnObject => FilterStop::NotAnObject,
            StartStop::OutOfMemory => FilterStop::OutOfMemory,
        }
    }
}

/// The verdict of a filter that has ended so.
fn verdict_at(alloc: Global, end: &End) -> Result<Verdict, AllocError>
    ensures { IfOk result (λ v. v ≡ verdict_at end.now) }
{
    match end {
        End::Done(text) => {
            if text.bytes() == b"true".as_slice() {
                Ok(Verdict::Yes)
            } else {
                Ok(Verdict::No)
            }
        }
        _ => Ok(Verdict::Broken(end_line(alloc, end)?)),
    }
}

/// The verdict of a filter that has ended so, or waits.
fn verdict_by(alloc: Global, end: &Option<End>) -> Result<Verdict, AllocError>
    ensures { IfOk result (λ v. v ≡ verdict_by end.now) }
{
    match end {
        Some(end) => verdict_at(alloc, end),
        None => {
            let line = String::from_str(alloc, "waiting")?;
            Ok(Verdict::Broken(HogText::from_string(line)))
        }
    }
}

/// Asks a filter about the JSON text of globals. It runs without replies.
pub fn passes(alloc: Global, filter: &Program, globals: &HogText) -> Result<Verdict, FilterStop>
    ensures says { IfOk result (λ v. Says filter.now.source globals.now v) }
    ensures object { IfOk result (λ _. is_globals globals.now ≡ true) }
    ensures not_an_object { result ≡ Err FilterStop.NotAnObject → is_globals globals.now ≡ false }
{
    let machine = rest(alloc, filter, globals)?;
    Ok(verdict_by(alloc, &machine.shown().end)?)
}
