//! The machine: a state, how many operations it has done, and whether it has met want of memory.

ghost use Rattle.std.specs.Prelude.{◌≡◌, ◌↔◌, ◌+◌, ◌<◌, ◌≤◌, ◌^◌, true, false, IsTrue, IsSome, OnOk, OnErr, length, option_and_then};
ghost use Rattle.std.specs.Bool.{OnFalse};
ghost use Rattle.std.specs.List.{last_or};
ghost use Rattle.std.specs.Option.{option_copied};
ghost use Rattle.hog_value.specs.Meters.{max_turns};
ghost use Rattle.hog_value.specs.Values.{Val};
ghost use Rattle.hog_value.specs.Cells.{IsCovered};
ghost use Rattle.hog_value.specs.Operations.{Gives, Spends};
ghost use Rattle.vm_course.specs.State.{Running, Waiting};
ghost use Rattle.vm_course.specs.Course.{shown_by};
ghost use Rattle.vm_course.specs.Run.{begun_with, where_running, resumed};
ghost use Rattle.vm_course.specs.Belongs.{literals_belong};
ghost use Rattle.vm_operations.specs.Machine.{HasEnded, request_of, asked_by, one_read};

use crate::state::State;
use hog_value::{End, Heap, HogText, Meter, Request, Shown, Trace, TraceItem};
use std::alloc::{AllocError, Global};
use std::marker::Model;
use vm_course::laws::heap_grows;
use vm_frames::Table;

/// A machine that runs a code. Contracts see its run, and whether it is spent: whether it has met want of memory. It keeps,
/// until it is spent, the cell of its globals, and that it waits behind a request alone.
#[derive(Drop)]
pub struct Machine {
    pub(crate) state: State,
    pub(crate) ops: u64,
    pub(crate) used: u64,
    pub(crate) globals: Option<u32>,
    pub(crate) spent: bool,
}

impl Model for Machine {
    ghost use Rattle.vm_operations.specs.Machine.{MachineView};

    ghost Value = { MachineView };

    ghost use Rattle.std.specs.Bool.{OnFalse};
    ghost use Rattle.std.specs.List.{last_or};
    ghost use Rattle.vm_operations.specs.Machine.{IsStanding};

    ghost view = { λ m. record { run = record { ops = m.ops; used = m.used; globals = m.globals; state = m.state }; spent = m.spent } };

    ghost invariant = { λ m. OnFalse m.spent (IsStanding (record { ops = m.ops; used = m.used; globals = m.globals; state = m.state })) };
}

/// The request that is the last item of a trace. Takes no memory.
fn last_request(trace: &Trace) -> Option<&Request>
    ensures { option_copied result ≡ option_and_then request_of (last_or None trace.now) }
{
    match trace.items().last() {
        Some(TraceItem::Asked(request)) => Some(request),
        Some(TraceItem::Printed(_)) => None,
        None => None,
    }
}

/// Whether a state goes on. Takes no memory.
fn goes_on(state: &State) -> bool
    ensures { IsTrue result ↔ (state.now.mode ≡ Running) }
{
    !state.waiting && state.shown.end.is_none()
}

/// How many replies were used, one more where the state that a reply has left goes on: its response has fit then. Takes no
/// memory.
fn used_after(state: &State, used: u64) -> u64
    requires { used + 1 < 2 ^ 64 }
    ensures { result ≡ where_running state.now.mode (used + 1) used }
{
    if goes_on(state) { used + 1 } else { used }
}

impl Machine {
    /// The machine behind its first operation, which has made these cells for so many units. The last of them is that of
    /// the globals. Takes no memory.
    pub fn begun(alloc: Global, heap: Heap, meter: Meter) -> Machine
        requires covered { IsCovered heap meter.units }
        requires unspent { meter.turns ≡ 0 }
        requires globals { 0 < length heap }
        ensures run { (v : Val) → result.run ≡ begun_with (Gives v heap meter.units) }
        ensures fresh { result.spent ≡ false }
    {
        let globals = heap.len() - 1;
        Machine {
            state: State::new(alloc, heap, meter),
            ops: 1,
            used: 0,
            globals: Some(globals as u32),
            spent: false,
        }
    }

    /// The machine whose first cells don't fit: it has ended, and holds none of them. Takes no memory.
    pub fn overfull(alloc: Global) -> Machine
        ensures run { result.run ≡ begun_with Spends }
        ensures fresh { result.spent ≡ false }
    {
        let mut state = State::new(alloc, Heap::new(alloc), Meter::new());
        state.end(End::MemorySpent);
        Machine {
            state,
            ops: 1,
            used: 0,
            globals: None,
            spent: false,
        }
    }

    /// How many operations were done, the first among them. Takes no memory.
    pub fn ops(&self) -> u64
        ensures { result ≡ self.now.run.ops }
    {
        self.ops
    }

    /// How many turns were spent. Takes no memory.
    pub fn turns(&self) -> u32
        ensures turns { result ≡ self.now.run.state.turns }
        ensures few { result ≤ max_turns }
    {
        self.state.turns()
    }

    /// What was shown so far, and the end where the machine has ended. Takes no memory.
    pub fn shown(&self) -> &Shown
        ensures { result.now ≡ shown_by self.now.run.state }
    {
        &self.state.shown
    }

    /// What was shown. Takes no memory.
    pub fn into_shown(self) -> Shown
        ensures { result ≡ shown_by self.run.state }
    {
        self.state.shown
    }

    /// The request for whose reply the machine waits. Takes no memory.
    pub fn waits(&self) -> Option<&Request>
        ensures request { option_copied result ≡ asked_by self.now.run.state }
        ensures waits { OnFalse self.now.spent (IsSome result ↔ (self.now.run.state.mode ≡ Waiting)) }
    {
        if !self.is_waiting() {
            return None;
        }
        last_request(&self.state.shown.trace)
    }

    /// Whether it has met want of memory. Takes no memory.
    pub fn is_spent(&self) -> bool
        ensures { result ≡ self.now.spent }
    {
        self.spent
    }

    /// Whether it goes on. Takes no memory.
    pub fn goes_on(&self) -> bool
        ensures { IsTrue result ↔ (self.now.run.state.mode ≡ Running) }
    {
        goes_on(&self.state)
    }

    /// Whether it waits for a reply. Takes no memory.
    pub fn is_waiting(&self) -> bool
        ensures { IsTrue result ↔ (self.now.run.state.mode ≡ Waiting) }
    {
        self.state.waiting && self.state.shown.end.is_none()
    }

    /// Whether the run has ended. Takes no memory.
    pub fn has_ended(&self) -> bool
        ensures { IsTrue result ↔ HasEnded self.now.run.state.mode }
    {
        self.state.shown.end.is_some()
    }

    /// From now on the machine is spent. Takes no memory.
    pub fn spend(&mut self)
        ensures { self.new ≡ record self.old { spent = true } }
    {
        self.spent = true;
    }

    /// One operation more. After want of memory the machine is spent.
    #[inline(always)]
    pub fn step(&mut self, alloc: Global, table: &Table) -> Result<(), AllocError>
        requires runs { self.old.run.state.mode ≡ Running }
        requires fresh { self.old.spent ≡ false }
        requires literals { literals_belong table.now.literals self.old.run.globals self.old.run.state.heap ≡ true }
        requires counted { self.old.run.ops + 1 < 2 ^ 64 }
        ensures done { OnOk result (self.new ≡ record { run = one_read table.now self.old.run; spent = false }) }
        ensures spends { OnErr result (IsTrue self.new.spent) }
    {
        heap_grows();
        let globals = self.globals.unwrap_or(0);
        match self.state.step(alloc, table, globals) {
            Ok(()) => {
                self.ops += 1;
                Ok(())
            }
            Err(want) => {
                self.spent = true;
                Err(want)
            }
        }
    }

    /// Takes in a reply, which is one operation. Where the response doesn't fit, memory is spent, and the reply isn't counted
    /// as used. After want of memory the machine is spent.
    pub fn take_reply(
        &mut self,
        alloc: Global,
        status: u16,
        body: &HogText,
    ) -> Result<(), AllocError>
        requires waits { self.old.run.state.mode ≡ Waiting }
        requires fresh { self.old.spent ≡ false }
        requires counted { self.old.run.ops + 1 < 2 ^ 64 }
        requires used { self.old.run.used + 1 < 2 ^ 64 }
        ensures done { OnOk result (self.new
            ≡ record { run = resumed (record { status = status; body = body.now }) self.old.run; spent = false }) }
        ensures spends { OnErr result (IsTrue self.new.spent) }
    {
        heap_grows();
        match self.state.take_reply(alloc, status, body) {
            Ok(()) => {
                self.ops += 1;
                self.used = used_after(&self.state, self.used);
                Ok(())
            }
            Err(want) => {
                self.spent = true;
                Err(want)
            }
        }
    }
}
