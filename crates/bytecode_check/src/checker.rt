//! The pass over a code.

ghost use Rattle.std.specs.Prelude.{◌≡◌, ◌≤◌, ◌+◌, ◌^◌, suc, ◌∷◌, []};
ghost use Rattle.std.specs.List.{list_any};
ghost use Rattle.hog_ops.specs.Table.{size, span};
ghost use Rattle.hog_ops.specs.View.{op_of};
ghost use Rattle.bytecode_check.specs.Shape.{shaped, open_try};
ghost use Rattle.bytecode_check.specs.Effects.{leads};
ghost use Rattle.bytecode_check.specs.Noted.{tries_in, seen, IsKnown, begun_alone};
ghost use Rattle.bytecode_check.specs.Verdict.{Told};
ghost use Rattle.bytecode_check.specs.Verify.{body_offset, captures_past, captures_none, underflows, no_local, no_upvalue, no_try, leads_off, give_all, judge as judge_by, begun, check_op as op_checked, check_all, verified};

use crate::shapes::{FrameShape, PlaceShapes};
use crate::stops::VerifyStop;
use crate::table::{depth_after, effect_of, place_at};
use hog_ops::{Capture, Code, Op};

/// The body in which an operation stands: how many captures its function has, and the place where it ends.
#[derive(Clone, Copy, Debug, PartialEq, Eq)]
pub struct Around {
    pub captures: usize,
    pub end: usize,
}

fn does_underflow(op: &Op, shape: FrameShape, shapes: &PlaceShapes) -> bool
    ensures { result ≡ underflows (op_of op.now) (seen shapes.now shape) }
{
    let floor = shapes.floor(shape);
    shape.depth < floor || shape.depth - floor < effect_of(op).looks
}

/// Whether a local that is captured lies past the depth.
fn is_one_past(captures: &[Capture], depth: usize) -> bool
    ensures { result ≡ list_any (captures_past depth) captures.now }
{
    captures.iter().any(|c| c.local && depth < c.index as usize)
}

/// Whether an upvalue that is captured isn't there.
fn is_one_missing(captures: &[Capture], there: usize) -> bool
    ensures { result ≡ list_any (captures_none there) captures.now }
{
    captures
        .iter()
        .any(|c| !c.local && there <= c.index as usize)
}

fn lacks_local(op: &Op, depth: usize) -> bool
    ensures { result ≡ no_local (op_of op.now) depth }
{
    match op {
        Op::GetLocal(i) => depth <= *i as usize,
        Op::SetLocal(i) => depth.saturating_sub(1) <= *i as usize,
        Op::Callable(f) => is_one_past(f.captures.items(), depth),
        _ => false,
    }
}

fn lacks_upvalue(op: &Op, there: usize) -> bool
    ensures { result ≡ no_upvalue (op_of op.now) there }
{
    match op {
        Op::GetUpvalue(i) | Op::SetUpvalue(i) => there <= *i as usize,
        Op::Callable(f) => is_one_missing(f.captures.items(), there),
        _ => false,
    }
}

fn lacks_try(op: &Op, shape: FrameShape, shapes: &PlaceShapes) -> bool
    requires { IsKnown shapes.now shape.within }
    ensures { result ≡ no_try (op_of op.now) (tries_in shapes.now shape.within) }
{
    match op {
        Op::PopTry => shape.within.is_none(),
        _ => false,
    }
}

/// Whether an operation leads to this place.
fn leads_to(op: &Op, behind: usize, end: usize, shape: FrameShape, shapes: &PlaceShapes) -> bool
    requires { behind ≤ 2 ^ 62 }
    ensures { result ≡ leads_off end (leads behind (op_of op.now) (seen shapes.now shape)) }
{
    match op {
        Op::Return | Op::Throw => false,
        Op::Jump(d) => place_at(behind, *d) == end,
        Op::JumpIfFalse(d) | Op::JumpIfStackNotNull(d) => {
            behind == end || place_at(behind, *d) == end
        }
        Op::Try(d) => place_at(behind, *d) == end || behind == end,
        _ => behind == end,
    }
}

/// Two places get the same shape.
fn give_two(
    at: usize,
    one: usize,
    two: usize,
    shape: FrameShape,
    shapes: &mut PlaceShapes,
) -> Result<(), VerifyStop>
    requires known { IsKnown shapes.old shape.within }
    requires grown { shape.depth ≤ 2 ^ 32 + at + 1 }
    ensures { Told result shapes.new (give_all at ((one, seen shapes.old shape) ∷ (two, seen shapes.old shape) ∷ []) shapes.old) }
{
    shapes.give(at, one, shape)?;
    shapes.give(at, two, shape)
}

/// A try is opened: its catch place gets one value more, and the place behind it the try.
fn give_try(
    at: usize,
    behind: usize,
    catch: usize,
    shape: FrameShape,
    shapes: &mut PlaceShapes,
) -> Result<(), VerifyStop>
    requires known { IsKnown shapes.old shape.within }
    requires grown { shape.depth ≤ 2 ^ 32 + at }
    requires place { at ≤ 2 ^ 33 }
    ensures { Told result shapes.new (give_all at
        ((catch, shaped (suc shape.depth) (tries_in shapes.old shape.within))
        ∷ (behind, shaped shape.depth (open_try shape.depth catch ∷ tries_in shapes.old shape.within)) ∷ []) shapes.old) }
{
    let caught = FrameShape {
        depth: shape.depth + 1,
        within: shape.within,
    };
    shapes.give(at, catch, caught)?;
    let opened = FrameShape {
        depth: shape.depth,
        within: Some(catch),
    };
    shapes.give(at, behind, opened)
}

/// Each place to which an operation leads gets its shape.
fn give_each(
    at: usize,
    behind: usize,
    op: &Op,
    shape: FrameShape,
    shapes: &mut PlaceShapes,
) -> Result<(), VerifyStop>
    requires known { IsKnown shapes.old shape.within }
    requires grown { shape.depth ≤ 2 ^ 32 + at }
    requires place { at ≤ 2 ^ 33 }
    requires near { behind ≤ 2 ^ 62 }
    ensures { Told result shapes.new (give_all at (leads behind (op_of op.now) (seen shapes.old shape)) shapes.old) }
{
    let next = FrameShape {
        depth: depth_after(op, shape.depth),
        within: shape.within,
    };
    match op {
        Op::Return | Op::Throw => Ok(()),
        Op::Jump(d) => shapes.give(at, place_at(behind, *d), shape),
        Op::JumpIfFalse(d) | Op::JumpIfStackNotNull(d) => {
            give_two(at, behind, place_at(behind, *d), next, shapes)
        }
        Op::Try(d) => give_try(at, behind, place_at(behind, *d), shape, shapes),
        Op::PopTry => shapes.give(at, behind, shapes.without_try(shape)),
        _ => shapes.give(at, behind, next),
    }
}

/// One operation with a shape: the first rule that it breaks refuses it.
fn judge(
    around: Around,
    at: usize,
    op: &Op,
    shape: FrameShape,
    shapes: &mut PlaceShapes,
) -> Result<(), VerifyStop>
    requires place { at + size (op_of op.now) ≤ 2 ^ 33 }
    requires known { IsKnown shapes.old shape.within }
    requires grown { shape.depth ≤ 2 ^ 32 + at }
    ensures { Told result shapes.new (judge_by around at (op_of op.now) (seen shapes.old shape) shapes.old) }
{
    if does_underflow(op, shape, shapes) {
        return Err(VerifyStop::Underflow { at });
    }
    if lacks_local(op, shape.depth) {
        return Err(VerifyStop::NoLocal { at });
    }
    if lacks_upvalue(op, around.captures) {
        return Err(VerifyStop::NoUpvalue { at });
    }
    if lacks_try(op, shape, shapes) {
        return Err(VerifyStop::NoTry { at });
    }
    let behind = at + op.len();
    if leads_to(op, behind, around.end, shape, shapes) {
        return Err(VerifyStop::FallsOff { at });
    }
    give_each(at, behind, op, shape, shapes)
}

/// A body begins.
fn begin(
    at: usize,
    start: usize,
    params: u32,
    body: &Code,
    shapes: &mut PlaceShapes,
) -> Result<(), VerifyStop>
    ensures { Told result shapes.new (begun_alone at body.now start params shapes.old) }
{
    if body.ops().is_empty() {
        return Err(VerifyStop::FallsOff { at: start });
    }
    let first = FrameShape {
        depth: params as usize,
        within: None,
    };
    shapes.give(at, start, first)
}

/// One operation, and its body.
#[cycle(pass)]
fn check_op(around: Around, at: usize, op: &Op, shapes: &mut PlaceShapes) -> Result<(), VerifyStop>
    requires { at + size (op_of op.now) ≤ 2 ^ 33 }
    ensures { Told result shapes.new (op_checked around at (op_of op.now) shapes.old) }
{
    let Some(shape) = shapes.get(at) else {
        return Ok(());
    };
    judge(around, at, op, shape, shapes)?;
    match op {
        Op::Callable(f) => {
            let captures = f.captures.items().len();
            check_body(at, f.params, captures, &f.body, shapes)
        }
        _ => Ok(()),
    }
}

/// The body of the function at a place.
#[cycle(pass)]
fn check_body(
    at: usize,
    params: u32,
    captures: usize,
    body: &Code,
    shapes: &mut PlaceShapes,
) -> Result<(), VerifyStop>
    requires place { at + body_offset + span body.now ≤ 2 ^ 33 }
    ensures { Told result shapes.new (begun at body.now (at + body_offset) params shapes.old
        (check_all (record { captures = captures; end = at + body_offset + span body.now }) (at + body_offset) body.now)) }
{
    let start = at + 5;
    begin(at, start, params, body, shapes)?;
    let end = start + body.elements() as usize;
    check_code(Around { captures, end }, start, body, shapes)
}

/// The operations of a body from left to right.
#[cycle(pass)]
fn check_code(
    around: Around,
    start: usize,
    code: &Code,
    shapes: &mut PlaceShapes,
) -> Result<(), VerifyStop>
    requires { start + span code.now ≤ 2 ^ 33 }
    ensures { Told result shapes.new (check_all around start code.now shapes.old) }
{
    let mut at = start;
    for op in code.ops() {
        check_op(around, at, op, shapes)?;
        at += op.len();
    }
    Ok(())
}

/// A program: a body without parameters and captures.
#[tactic(auto, unfolding(crate::specs::Verify::verified))]
pub(crate) fn check_program(code: &Code, shapes: &mut PlaceShapes) -> Result<(), VerifyStop>
    requires { shapes.old ≡ [] }
    ensures { Told result shapes.new (verified code.now) }
{
    begin(0, 2, 0, code, shapes)?;
    let end = 2 + code.elements() as usize;
    check_code(Around { captures: 0, end }, 2, code, shapes)
}
