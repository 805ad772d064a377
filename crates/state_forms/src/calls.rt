//! Frames and throw frames as JSON, and whether a machine goes on.

ghost use Rattle.std.specs.Prelude.{◌≡◌, IfOk};
ghost use Rattle.serde_json.specs.View.{view};
ghost use Rattle.state_forms.specs.Shapes.{Gives};
ghost use Rattle.serde_json.specs.Find.{as_str};
ghost use Rattle.state_forms.specs.Calls.{is_wait, mode_in, mode_data, mode_of};

use crate::forms::{
    Json, array_of, list_value, number, number_u32, read_maybe, string, write_maybe,
};
use crate::stop::ReadStop;
use hog_value::End;
use serde_json::Value;
use std::alloc::{AllocError, Global};
use vm_frames::{Frame, ThrowFrame};

impl Json for Frame {
    ghost use Rattle.state_forms.specs.Calls.{frame_in, frame_data, FrameFits};

    ghost written = { frame_data };

    ghost reads = { frame_in };

    ghost fits = { FrameFits };

    fn read(alloc: Global, v: &Value) -> Result<Frame, ReadStop> {
        match array_of(v)? {
            [p, b, f] => {
                let place = number_u32(p)?;
                let base = number_u32(b)?;
                let function = read_maybe::<u32>(alloc, f)?;
                Ok(Frame {
                    place,
                    base,
                    function,
                })
            }
            _ => Err(ReadStop::Refused),
        }
    }

    fn write(&self, alloc: Global) -> Result<Value, AllocError> {
        let function = write_maybe(alloc, &self.function)?;
        Ok(list_value(vec![in alloc; number(self.place), number(self.base), function]?))
    }
}

impl Json for ThrowFrame {
    ghost use Rattle.state_forms.specs.Calls.{throw_in, throw_data, ThrowFits};

    ghost written = { throw_data };

    ghost reads = { throw_in };

    ghost fits = { ThrowFits };

    fn read(_alloc: Global, v: &Value) -> Result<ThrowFrame, ReadStop> {
        match array_of(v)? {
            [n, h, c] => {
                let frames = number_u32(n)?;
                let height = number_u32(h)?;
                let catch = number_u32(c)?;
                Ok(ThrowFrame {
                    frames,
                    height,
                    catch,
                })
            }
            _ => Err(ReadStop::Refused),
        }
    }

    fn write(&self, alloc: Global) -> Result<Value, AllocError> {
        Ok(list_value(vec![in alloc;
            number(self.frames),
            number(self.height),
            number(self.catch),
        ]?))
    }
}

/// Whether a value is the word of one that waits. Takes no memory.
fn is_wait(v: &Value) -> bool
    ensures { result ≡ is_wait (as_str (view v.now)) }
{
    match v.as_str() {
        Some(word) => word == "wait",
        None => false,
    }
}

/// Whether a machine waits, and its end where it has ended.
pub fn read_mode(alloc: Global, v: &Value) -> Result<(bool, Option<End>), ReadStop>
    ensures { Gives (λ m. mode_of m.0 m.1) result (mode_in (view v.now)) }
{
    if v.is_null() {
        return Ok((false, None));
    }
    if is_wait(v) {
        return Ok((true, None));
    }
    match End::read(alloc, v) {
        Ok(end) => Ok((false, Some(end))),
        Err(e) => Err(e),
    }
}

/// The form of whether a machine waits, and of its end where it has ended.
pub fn write_mode(alloc: Global, waiting: bool, end: &Option<End>) -> Result<Value, AllocError>
    ensures { IfOk result (λ v. view v ≡ mode_data (mode_of waiting end.now)) }
{
    match end {
        Some(e) => e.write(alloc),
        None => {
            if waiting {
                string(alloc, "wait")
            } else {
                Ok(Value::Null)
            }
        }
    }
}
