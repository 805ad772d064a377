//! The code of elements in which no fault is but in distances.

ghost use Rattle.std.specs.Prelude.{◌≡◌, ℕ, pos, ◌+ℤ◌, ◌+◌, ◌*◌, ◌<◌, ◌≤◌, ◌^◌, ◌&&◌, ◌++◌, length, drop, take, List, is_some, true, None, Some, IfOk, if◌then◌else◌};
ghost use Rattle.serde_json.specs.Find.{as_str};
ghost use Rattle.hog_ops.specs.declared.capture.Capture.{Capture as ACapture};
ghost use Rattle.hog_ops.specs.Plain.{Callable};
ghost use Rattle.hog_ops.specs.Table.{row};
ghost use Rattle.hog_ops.specs.View.{op_of};
ghost use Rattle.bytecode_front.specs.Front.{first_by, captures_in, front_of};
ghost use Rattle.bytecode_builder.specs.Marks.{is_marked, row_led, HasMarks};
ghost use Rattle.bytecode_front.specs.Reading.{read_ops};
ghost use Rattle.bytecode_builder.specs.Placed.{Answers, placed};
ghost use Rattle.bytecode_front.specs.Views.{views, Shows, CallableAt, HasCallable};

use bytecode_front::front::{Front, behind, capture_in, first_small, front_at, front_part};
use bytecode_front::stop::CodeStop;
use hog_ops::{CallableOp, Capture, Captures, Code, Op};
use hog_value::HogText;
use serde_json::Value;
use std::alloc::{AllocError, Global};

/// Whether a place of a body has its mark.
fn is_marked(marks: &[u16], mark: u16, place: i64) -> bool
    requires { 0 < mark }
    ensures { result ≡ is_marked marks.now mark place }
{
    if place < 0 {
        return false;
    }
    match marks.get(place as usize) {
        Some(m) => *m == mark,
        None => false,
    }
}

/// Whether a distance from a place of a body leads to a place of it.
fn lands(marks: &[u16], mark: u16, end: usize, distance: i64) -> bool
    requires mark { 0 < mark }
    requires end { end < 2 ^ 62 }
    requires short { length marks.now < 2 ^ 62 }
    ensures { result ≡ is_marked marks.now mark (pos end +ℤ distance) }
{
    match (end as i64).checked_add(distance) {
        Some(place) => is_marked(marks, mark, place),
        None => false,
    }
}

/// Whether the operation, which ends at a place of its body, leads to a place of it.
fn leads(op: &Op, marks: &[u16], mark: u16, end: usize) -> bool
    requires mark { 0 < mark }
    requires end { end < 2 ^ 62 }
    requires short { length marks.now < 2 ^ 62 }
    ensures { result ≡ row_led marks.now mark end (row (op_of op.now)) }
{
    match op {
        Op::Jump(d) => lands(marks, mark, end, *d),
        Op::JumpIfFalse(d) | Op::JumpIfStackNotNull(d) | Op::Try(d) => {
            *d >= 0 && lands(marks, mark, end, *d)
        }
        _ => true,
    }
}

/// The operation, if it leads to a place of its body or nowhere.
fn led(op: Op, marks: &[u16], mark: u16, end: usize) -> Option<Op>
    requires mark { 0 < mark }
    requires end { end < 2 ^ 62 }
    requires short { length marks.now < 2 ^ 62 }
    ensures { result ≡ (if row_led marks.now mark end (row (op_of op)) then Some op else None) }
{
    if leads(&op, marks, mark, end) {
        Some(op)
    } else {
        None
    }
}

/// The text of the first element.
fn text_at(alloc: Global, items: &[Value]) -> Result<HogText, AllocError>
    requires { is_some (first_by as_str (views items.now)) ≡ true }
    ensures { IfOk result (λ t. first_by as_str (views items.now) ≡ Some t) }
{
    match items {
        [v, ..] => match v.as_str() {
            Some(text) => Ok(HogText::from_string(String::from_str(alloc, text)?)),
            None => unreachable!(),
        },
        [] => unreachable!(),
    }
}

/// So many captures.
fn captures_at(alloc: Global, n: u32, items: &[Value]) -> Result<Captures, AllocError>
    requires { is_some (captures_in n (views items.now)) ≡ true }
    ensures { IfOk result (λ cs. captures_in n (views items.now) ≡ Some cs) }
{
    let mut captures = Vec::new(alloc);
    let mut rest = items;
    for i in 0..n {
        match rest {
            [local, index, more @ ..] => match capture_in(local, index) {
                Some(capture) => {
                    captures.push(capture)?;
                    rest = more;
                }
                None => unreachable!(),
            },
            _ => unreachable!(),
        }
    }
    Ok(Captures::new(captures))
}

/// The CALLABLE at the front with this body.
#[tactic(auto, using(bytecode_front::proofs::Slices::drop_views))]
fn callable(
    alloc: Global,
    items: &[Value],
    captures: u32,
    len: usize,
    body: Code,
) -> Result<Op, AllocError>
    requires there { HasCallable (views items.now) captures len }
    requires short { len < 2 ^ 32 }
    ensures { (name : List ℕ) (params : ℕ) (cs : List ACapture) → CallableAt (views items.now) captures len name params cs
        → IfOk result (λ o. op_of o ≡ Callable name params body cs) }
{
    let name = text_at(alloc, behind(items, 1))?;
    let Some(params) = first_small(behind(items, 2)) else {
        unreachable!()
    };
    let captures = captures_at(alloc, captures, behind(items, 7 + len))?;
    Ok(Op::Callable(CallableOp {
        name,
        params,
        body,
        captures,
    }))
}

/// The marks of so many elements from a place on.
fn marks_part(marks: &[u16], place: usize, n: usize) -> &[u16]
    requires { place + n ≤ length marks.now }
    ensures { result.now ≡ take n (drop place marks.now) }
{
    &marks[place..place + n]
}

/// The code of elements that begin at a place of the array, whose marks these are, with that of
/// their end; or the refusal of the first operation whose distance leads to no place of its body.
pub fn build(
    alloc: Global,
    items: &[Value],
    room: u16,
    at: usize,
    marks: &[u16],
) -> Result<Code, CodeStop>
    requires short { length items.now < 2 ^ 32 }
    requires place { at + length items.now < 2 ^ 62 }
    requires room { room ≤ 1000 }
    requires marked { HasMarks room (read_ops room at (views items.now)) marks.now }
    ensures { Answers result (placed at (read_ops room at (views items.now))) }
{
    let mut ops = Vec::new(alloc);
    let mut rest = items;
    let mut place = 0;
    while !rest.is_empty() {
        match front_at(rest, room) {
            Front::Faulty(_) => unreachable!(),
            Front::Found(op) => {
                let size = op.len();
                match led(op, marks, room + 1, place + size) {
                    Some(op) => {
                        ops.push(op)?;
                        rest = behind(rest, size);
                        place += size;
                    }
                    None => return Err(CodeStop::BadOperand { at: at + place }),
                }
            }
            Front::Text => {
                let text = text_at(alloc, behind(rest, 1))?;
                ops.push(Op::Str(text))?;
                rest = behind(rest, 2);
                place += 2;
            }
            Front::Opens { captures, len } => {
                let len = len as usize;
                let inner = front_part(behind(rest, 5), len);
                let inner_marks = marks_part(marks, place + 5, len + 1);
                match build(alloc, inner, room - 1, at + place + 5, inner_marks) {
                    Ok(body) => {
                        let size = 7 + len + 2 * captures as usize;
                        ops.push(callable(alloc, rest, captures, len, body)?)?;
                        rest = behind(rest, size);
                        place += size;
                    }
                    Err(stop) => return Err(stop),
                }
            }
        }
    }
    Ok(Code::new(ops))
}
