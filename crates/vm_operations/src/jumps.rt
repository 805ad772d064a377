//! Jumps, and where a throw lands from now on.

ghost use Rattle.std.specs.Prelude.{◌≡◌, ◌<◌, ◌≤◌, ◌^◌, pos, ◌≤ℤ◌, length, OnOk};
ghost use Rattle.hog_ops.specs.Plain as o;
ghost use Rattle.vm_course.specs.Stack.{keep};
ghost use Rattle.vm_course.specs.Step.{place_at, jump, jump_or_back};
ghost use Rattle.vm_operations.specs.Here.{here_of, Does};

use crate::state::State;
use hog_value::{End, Value};
use std::alloc::AllocError;
use vm_frames::throws::ThrowFrame;

/// The place at a distance.
fn place_at(behind: u32, distance: i64) -> u32
    requires { place_at behind distance < 2 ^ 32 }
    ensures { result ≡ place_at behind distance }
{
    if distance < 0 {
        (u64::from(behind)).saturating_sub(distance.unsigned_abs()) as u32
    } else {
        (u64::from(behind) + distance as u64) as u32
    }
}

impl State {
    /// Goes on at a distance. Takes no memory.
    fn jump_by(&mut self, behind: u32, distance: i64)
        requires { place_at behind distance < 2 ^ 32 }
        ensures { self.new ≡ jump (here_of behind self.old) distance self.old }
    {
        let place = place_at(behind, distance);
        self.go_to(place);
    }

    /// JUMP. Takes no memory.
    pub(crate) fn jump(&mut self, behind: u32, distance: i64)
        requires { place_at behind distance < 2 ^ 32 }
        ensures { Does (o.Jump distance) behind self.old self.new }
    {
        if distance >= 0 {
            self.jump_by(behind, distance);
            return;
        }
        if !self.spend_turn() {
            self.end(End::TurnsSpent);
            return;
        }
        self.jump_by(behind, distance);
    }

    /// JUMP_IF_FALSE. Takes no memory.
    pub(crate) fn jump_if_false(&mut self, behind: u32, distance: i64)
        requires { place_at behind distance < 2 ^ 32 }
        ensures { Does (o.JumpIfFalse distance) behind self.old self.new }
    {
        let floor = self.floor();
        let all = self.len();
        let (v, rest) = self.top(floor, all);
        if self.heap.truth(v) {
            self.go_on(behind, rest);
            return;
        }
        self.cut(rest);
        self.jump_by(behind, distance);
    }

    /// JUMP_IF_STACK_NOT_NULL. Takes no memory.
    pub(crate) fn jump_if_stack_not_null(&mut self, behind: u32, distance: i64)
        requires { place_at behind distance < 2 ^ 32 }
        ensures { Does (o.JumpIfStackNotNull distance) behind self.old self.new }
    {
        let floor = self.floor();
        let all = self.len();
        let (v, _) = self.top(floor, all);
        match v {
            Value::Null => self.go_on(behind, all),
            _ => self.jump_by(behind, distance),
        }
    }

    /// TRY
    #[inline(never)]
    pub(crate) fn open_try(&mut self, behind: u32, distance: i64) -> Result<(), AllocError>
        requires { place_at behind distance < 2 ^ 32 }
        ensures { OnOk result (Does (o.Try distance) behind self.old self.new) }
    {
        let height = self.len();
        let frames = self.around.len() + 1;
        let catch = place_at(behind, distance);
        self.go_on(behind, height);
        self.throws.push(ThrowFrame {
            frames,
            height,
            catch,
        })
    }

    /// POP_TRY. Takes no memory.
    #[inline(never)]
    pub(crate) fn pop_try(&mut self, behind: u32)
        ensures { Does o.PopTry behind self.old self.new }
    {
        let all = self.len();
        let frames = self.around.len() + 1;
        self.go_on(behind, all);
        self.throws.pop_of(frames);
    }
}
