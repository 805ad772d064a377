//! Calls of natives, globals, and replies.

ghost use Rattle.std.specs.Prelude.{◌≡◌, ◌≤◌, ◌&&◌, ◌∷◌, [], length, nat_le, count_by, IsTrue, OnOk};
ghost use Rattle.hog_value.specs.Natives.{takes_of};
ghost use Rattle.hog_library.specs.Answers.{AnswerNames};
ghost use Rattle.hog_ops.specs.Plain as o;
ghost use Rattle.hog_meaning.specs.Meaning.{is_request, is_fetch, most_requests};
ghost use Rattle.vm_course.specs.Step.{spent_by, take_reply, said};
ghost use Rattle.vm_operations.specs.Here.{Does, answer_taken, IsCallStopped};

use crate::gathers::set_stop;
use crate::state::State;
use hog_library::{CallStop, NativeAnswer, call_native, make_reply};
use hog_value::{End, HogText, Meter, Native, TraceItem, Value};
use std::alloc::{AllocError, Global};

/// The most requests of a run.
const MOST_REQUESTS: usize = 100;

/// How many items of a trace are requests. Takes no memory.
fn count_requests(items: &[TraceItem]) -> usize
    ensures { result ≡ count_by is_request items.now }
{
    items
        .iter()
        .filter(|item| matches!(item, TraceItem::Asked(_)))
        .count()
}

/// Whether a native is `fetch`.
fn is_fetch(native: Native) -> bool
    ensures { result ≡ is_fetch native }
{
    matches!(native, Native::Fetch)
}

impl State {
    /// Takes in a reply: the response is made and goes on the stack. Where it doesn't fit, memory is spent.
    pub(crate) fn take_reply(
        &mut self,
        alloc: Global,
        status: u16,
        body: &HogText,
    ) -> Result<(), AllocError>
        ensures { OnOk result (self.new ≡ take_reply (record { status = status; body = body.now } ∷ []) self.old) }
    {
        let mut meter = self.meter;
        let made = make_reply(alloc, status, body, &mut self.heap, &mut meter);
        self.meter = meter;
        match made {
            Ok(v) => {
                self.waiting = false;
                self.shown.end = None;
                self.push(v)
            }
            Err(why) => self.stop(alloc, set_stop(why)),
        }
    }

    /// Adds an item to the trace.
    fn say(&mut self, item: TraceItem) -> Result<(), AllocError>
        ensures { OnOk result (self.new ≡ said item self.old) }
    {
        self.shown.trace.push(item)
    }

    /// What is spent, with the depth of the innermost frame. Takes no memory.
    fn spent(&self) -> Meter
        ensures { result ≡ spent_by self.now }
    {
        let meter = self.meter;
        let depth = self.around.len() as u16;
        Meter {
            turns: meter.turns,
            units: meter.units,
            depth,
        }
    }

    /// Whether a native is a `fetch` with 100 requests behind it. Takes no memory.
    fn is_one_too_many(&self, native: Native) -> bool
        ensures { result ≡ (is_fetch native && nat_le most_requests (count_by is_request self.now.trace)) }
    {
        is_fetch(native) && count_requests(self.shown.trace.items()) >= MOST_REQUESTS
    }

    /// Takes the answer of a native, with so much of the stack left.
    fn take_answer(
        &mut self,
        alloc: Global,
        behind: u32,
        rest: u32,
        answer: NativeAnswer,
    ) -> Result<(), AllocError>
        requires rest { rest ≤ length self.old.stack }
        requires names { AnswerNames (length self.old.heap) answer }
        ensures { OnOk result (self.new ≡ answer_taken behind rest answer self.old) }
    {
        match answer {
            NativeAnswer::Gives(v) => self.go_on_with(behind, rest, v),
            NativeAnswer::Prints(text) => {
                self.say(TraceItem::Printed(text))?;
                self.go_on_with(behind, rest, Value::Null)
            }
            NativeAnswer::Throws(kind) => self.throw_kind(alloc, kind),
            NativeAnswer::Asks(request) => {
                self.say(TraceItem::Asked(request))?;
                self.go_on(behind, rest);
                self.shown.end = None;
                self.waiting = true;
                Ok(())
            }
        }
    }

    /// CALL_GLOBAL
    pub(crate) fn call_global(
        &mut self,
        alloc: Global,
        behind: u32,
        native: Native,
        n: u32,
    ) -> Result<(), AllocError>
        requires { IsTrue (takes_of native n) }
        ensures { OnOk result (Does (o.CallGlobal native n) behind self.old self.new) }
    {
        if self.is_one_too_many(native) {
            self.end(End::TooManyFetches);
            return Ok(());
        }
        let (values, rest) = self.operands(alloc, u64::from(n))?;
        let mut meter = self.spent();
        let answer = call_native(alloc, native, values.as_slice(), &mut self.heap, &mut meter);
        self.meter = meter;
        match answer {
            Ok(answer) => self.take_answer(alloc, behind, rest, answer),
            Err(why) => self.stop_call(why),
        }
    }

    /// Ends the run where a native's call stopped. Want of memory ends no run.
    fn stop_call(&mut self, why: CallStop) -> Result<(), AllocError>
        ensures { OnOk result (IsCallStopped why self.old self.new) }
    {
        match why {
            CallStop::TurnsSpent => {
                self.end(End::TurnsSpent);
                Ok(())
            }
            CallStop::UnitsSpent => {
                self.end(End::MemorySpent);
                Ok(())
            }
            CallStop::OutOfMemory => Err(AllocError),
        }
    }
}
