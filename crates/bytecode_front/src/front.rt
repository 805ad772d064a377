//! The operation at the front of a list of elements.

ghost use Rattle.std.specs.Prelude.{◌≡◌, ℕ, pos, length, take, drop, nat_le, ◌≤◌, ◌&&◌, is_some, option_map, option_and_then, ◌<◌, ◌^◌};
ghost use Rattle.serde_json.specs.Find.{as_str, as_bool};
ghost use Rattle.serde_json.specs.View.{view};
ghost use Rattle.hog_value.specs.Natives.{native_named};
ghost use Rattle.hog_ops.specs.Plain.{Str};
ghost use Rattle.hog_ops.specs.Table.{plain_ops, count_ops, jump_ops, numbered};
ghost use Rattle.hog_ops.specs.View.{op_of};
ghost use Rattle.bytecode_front.specs.Front.{whole_in, small_of, small_in, first_by, capture_by, captures_in, is_small, closure_in, found, count_in, jump_in, integer_in, str_in, call_in, opened, opened_by, front_by, front_of};
ghost use Rattle.bytecode_front.specs.Views.{views, Shows};

use crate::stop::Why;
use hog_ops::{Capture, Op};
use hog_value::Native;
use serde_json::Value;

/// What stands at a place.
#[derive(Drop)]
pub enum Front {
    Faulty(Why),
    /// An operation that is no CALLABLE and has no text.
    Found(Op),
    /// The operation that pushes the text of the next element.
    Text,
    /// A CALLABLE with so many captures, whose body has so many elements.
    Opens { captures: u32, len: u32 },
}

/// The operation of this number, where it has no operand.
fn plain_op(n: u64) -> Option<Op>
    ensures { option_map op_of result ≡ numbered n plain_ops }
{
    let op = match n {
        5 => Op::Not,
        6 => Op::Plus,
        7 => Op::Minus,
        8 => Op::Multiply,
        11 => Op::Eq,
        12 => Op::NotEq,
        13 => Op::Gt,
        14 => Op::GtEq,
        15 => Op::Lt,
        16 => Op::LtEq,
        21 => Op::IsIn,
        22 => Op::NotIn,
        29 => Op::PushTrue,
        30 => Op::PushFalse,
        31 => Op::PushNull,
        35 => Op::Pop,
        38 => Op::Return,
        45 => Op::GetProperty,
        46 => Op::SetProperty,
        48 => Op::GetPropertyNullish,
        49 => Op::Throw,
        51 => Op::PopTry,
        57 => Op::CloseUpvalue,
        _ => return None,
    };
    Some(op)
}

/// The operation of this number, where it has a count or an index.
fn count_op(n: u64, count: u32) -> Option<Op>
    ensures { option_map op_of result ≡ numbered n (count_ops count) }
{
    let op = match n {
        1 => Op::GetGlobal(count),
        3 => Op::And(count),
        4 => Op::Or(count),
        36 => Op::GetLocal(count),
        37 => Op::SetLocal(count),
        42 => Op::Dict(count),
        43 => Op::Array(count),
        54 => Op::CallLocal(count),
        55 => Op::GetUpvalue(count),
        56 => Op::SetUpvalue(count),
        _ => return None,
    };
    Some(op)
}

/// The operation of this number, where it has a distance.
fn jump_op(n: u64, distance: i64) -> Option<Op>
    ensures { option_map op_of result ≡ numbered n (jump_ops distance) }
{
    let op = match n {
        39 => Op::Jump(distance),
        40 => Op::JumpIfFalse(distance),
        47 => Op::JumpIfStackNotNull(distance),
        50 => Op::Try(distance),
        _ => return None,
    };
    Some(op)
}

fn small_of(n: i64) -> Option<u32>
    ensures { result ≡ small_of n }
{
    if 0 <= n && n < 4_294_967_296 {
        Some(n as u32)
    } else {
        None
    }
}

/// A number from 0 to 4294967295.
pub fn small(v: &Value) -> Option<u32>
    ensures { result ≡ small_in (view v.now) }
{
    match v.as_i64() {
        Some(n) => small_of(n),
        None => None,
    }
}

pub fn first_small(rest: &[Value]) -> Option<u32>
    ensures { result ≡ first_by small_in (views rest.now) }
{
    match rest {
        [v, ..] => small(v),
        [] => None,
    }
}

fn first_whole(rest: &[Value]) -> Option<i64>
    ensures { result ≡ first_by whole_in (views rest.now) }
{
    match rest {
        [v, ..] => v.as_i64(),
        [] => None,
    }
}

fn count_in(n: u64, rest: &[Value]) -> Option<Op>
    ensures { option_map op_of result ≡ count_in n (views rest.now) }
{
    match first_small(rest) {
        Some(count) => count_op(n, count),
        None => None,
    }
}

fn jump_in(n: u64, rest: &[Value]) -> Option<Op>
    ensures { option_map op_of result ≡ jump_in n (views rest.now) }
{
    match first_whole(rest) {
        Some(distance) => jump_op(n, distance),
        None => None,
    }
}

fn integer_in(rest: &[Value]) -> Option<Op>
    ensures { option_map op_of result ≡ integer_in (views rest.now) }
{
    match first_whole(rest) {
        Some(n) => Some(Op::Integer(n)),
        None => None,
    }
}

/// The native that a text names.
fn native_in(v: &Value) -> Option<Native>
    ensures { result ≡ option_and_then native_named (as_str (view v.now)) }
{
    match v.as_str() {
        Some(word) => Native::named(word.as_bytes()),
        None => None,
    }
}

fn call_in(rest: &[Value]) -> Option<Op>
    ensures { option_map op_of result ≡ call_in (views rest.now) }
{
    match rest {
        [word, count, ..] => match (native_in(word), small(count)) {
            (Some(native), Some(count)) => Some(Op::CallGlobal(native, count)),
            _ => None,
        },
        _ => None,
    }
}

fn found(op: Option<Op>) -> Front
    ensures { Shows result (found (option_map op_of op)) }
{
    match op {
        Some(op) if op.is_allowed() => Front::Found(op),
        _ => Front::Faulty(Why::Bad),
    }
}

/// The operation that pushes the first element, which is to be a text.
fn text_in(rest: &[Value]) -> Front
    ensures { Shows result (found (str_in (views rest.now))) }
{
    match rest {
        [v, ..] if v.as_str().is_some() => Front::Text,
        _ => Front::Faulty(Why::Bad),
    }
}

/// A capture: whether it is a local, and its index.
pub fn capture_in(local: &Value, index: &Value) -> Option<Capture>
    ensures { result ≡ capture_by (as_bool (view local.now)) (small_in (view index.now)) }
{
    match (local.as_bool(), small(index)) {
        (Some(local), Some(index)) => Some(Capture { local, index }),
        _ => None,
    }
}

/// Whether the elements begin with so many captures.
fn captures_are_there(n: u32, items: &[Value]) -> bool
    ensures { result ≡ is_some (captures_in n (views items.now)) }
{
    let mut rest = items;
    for i in 0..n {
        match rest {
            [local, index, more @ ..] => {
                if capture_in(local, index).is_none() {
                    return false;
                }
                rest = more;
            }
            _ => return false,
        }
    }
    true
}

fn is_small(k: u32, n: Option<u32>) -> bool
    ensures { result ≡ is_small k n }
{
    match n {
        Some(n) => n == k,
        None => false,
    }
}

/// Whether the elements begin with the CLOSURE of so many captures.
fn closure_is_there(n: u32, items: &[Value]) -> bool
    ensures { result ≡ is_some (closure_in n (views items.now)) }
{
    match items {
        [number, count, rest @ ..] => is_small(53, small(number))
            && is_small(n, small(count))
            && captures_are_there(n, rest),
        _ => false,
    }
}

/// The elements behind the first n.
#[tactic(auto, using(crate::proofs::Slices::drop_whole))]
pub fn behind(items: &[Value], n: usize) -> &[Value]
    requires { n ≤ length items.now }
    ensures { result.now ≡ drop n items.now }
{
    &items[n..]
}

/// The first n elements.
pub fn front_part(items: &[Value], n: usize) -> &[Value]
    requires { n ≤ length items.now }
    ensures { result.now ≡ take n items.now }
{
    &items[..n]
}

/// Whether a CLOSURE follows a body of this length.
fn body_is_there(n: u32, len: u32, rest: &[Value]) -> bool
    ensures { result
        ≡ (nat_le len (length (views rest.now)) && is_some (closure_in n (drop len (views rest.now)))) }
{
    if len as usize <= rest.len() {
        closure_is_there(n, behind(rest, len as usize))
    } else {
        false
    }
}

fn callable_is_there(room: u16, name: &Value, n: u32, len: u32, rest: &[Value]) -> bool
    ensures { result ≡ (nat_le 1 room && is_some (as_str (view name.now))
        && (nat_le len (length (views rest.now)) && is_some (closure_in n (drop len (views rest.now))))) }
{
    1 <= room && name.as_str().is_some() && body_is_there(n, len, rest)
}

fn opened_by(room: u16, name: &Value, params: u32, n: u32, len: u32, rest: &[Value]) -> Front
    ensures { Shows result
        (opened_by room (as_str (view name.now)) (Some params) (Some n) (Some len) (views rest.now)) }
{
    if callable_is_there(room, name, n, len, rest) {
        Front::Opens { captures: n, len }
    } else {
        Front::Faulty(Why::Bad)
    }
}

/// A CALLABLE behind its number.
#[tactic(auto, unfolding(crate::specs::Front::opened))]
fn opened(room: u16, rest: &[Value]) -> Front
    ensures { Shows result (opened room (views rest.now)) }
{
    match rest {
        [name, params, n, len, rest @ ..] => match (small(params), small(n), small(len)) {
            (Some(params), Some(n), Some(len)) => opened_by(room, name, params, n, len, rest),
            _ => Front::Faulty(Why::Bad),
        },
        _ => Front::Faulty(Why::Bad),
    }
}

/// The operation of this number, whose operands are the first of the elements.
fn front_by(room: u16, n: u64, rest: &[Value]) -> Front
    requires { n < 2 ^ 63 }
    ensures { Shows result (front_by room n (views rest.now)) }
{
    let plain = plain_op(n);
    if plain.is_some() {
        found(plain)
    } else if count_op(n, 0).is_some() {
        found(count_in(n, rest))
    } else if jump_op(n, 0).is_some() {
        found(jump_in(n, rest))
    } else if n == 2 {
        found(call_in(rest))
    } else if n == 32 {
        text_in(rest)
    } else if n == 33 {
        found(integer_in(rest))
    } else if n == 52 {
        opened(room, rest)
    } else if 1 <= n && n <= 57 {
        Front::Faulty(Why::Outside(n as i64))
    } else {
        Front::Faulty(Why::Unknown(n as i64))
    }
}

/// What stands at the front, where so many bodies may still stand in one another.
pub fn front_at(items: &[Value], room: u16) -> Front
    ensures { Shows result (front_of room (views items.now)) }
{
    match items {
        [v, rest @ ..] => match v.as_i64() {
            Some(n) => {
                if 0 <= n {
                    front_by(room, n as u64, rest)
                } else {
                    Front::Faulty(Why::Unknown(n))
                }
            }
            None => Front::Faulty(Why::Bad),
        },
        [] => Front::Faulty(Why::Bad),
    }
}
