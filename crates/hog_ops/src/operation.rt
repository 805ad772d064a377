//! Operations, and codes as lists of them.

use crate::capture::Captures;
use hog_value::{HogText, Native};
use std::marker::Model;

/// An operation of the bytecode with its operands.
#[cycle(code)]
#[derive(Drop)]
pub enum Op {
    /// Reads a global by its name, and then properties: the count of names, at least 1.
    GetGlobal(u32),
    /// Calls a native with so many arguments.
    CallGlobal(Native, u32),
    /// Whether all of so many values are true; at least 1.
    And(u32),
    /// Whether one of so many values is true; at least 1.
    Or(u32),
    Not,
    Plus,
    Minus,
    Multiply,
    Eq,
    NotEq,
    Gt,
    GtEq,
    Lt,
    LtEq,
    IsIn,
    NotIn,
    PushTrue,
    PushFalse,
    PushNull,
    /// Pushes a text.
    Str(HogText),
    /// Pushes a whole number.
    Integer(i64),
    Pop,
    /// Pushes the local of this index.
    GetLocal(u32),
    /// Sets the local of this index.
    SetLocal(u32),
    Return,
    /// Goes on so many elements behind its end; alone may lead back.
    Jump(i64),
    /// Pops, and jumps where the value is false.
    JumpIfFalse(i64),
    /// Makes a dictionary of so many pairs.
    Dict(u32),
    /// Makes an array of so many items.
    Array(u32),
    GetProperty,
    SetProperty,
    /// Jumps where the top is not null, and pops nothing.
    JumpIfStackNotNull(i64),
    GetPropertyNullish,
    Throw,
    /// Opens a throw frame, whose catch place is so many elements behind its end.
    Try(i64),
    PopTry,
    /// Makes a function.
    Callable(CallableOp),
    /// Calls the function on top with so many arguments.
    CallLocal(u32),
    /// Pushes the upvalue of this index.
    GetUpvalue(u32),
    /// Sets the upvalue of this index.
    SetUpvalue(u32),
    CloseUpvalue,
}

/// The operation that makes a function: CALLABLE with its CLOSURE.
#[cycle(code)]
#[derive(Drop)]
pub struct CallableOp {
    pub name: HogText,
    pub params: u32,
    pub body: Code,
    pub captures: Captures,
}

/// Operations that take fewer than 2^32 elements, whose operands are those of the table, whose
/// distances lead to places of their own body, and of which at most 1,000 bodies stand in one
/// another. Contracts see the plain operations.
#[cycle(code)]
#[derive(Drop)]
pub struct Code {
    ops: Vec<Op>,
    elements: u32,
}

impl Model for Code {
    ghost use Rattle.std.specs.Prelude.{◌≡◌};
    ghost use Rattle.hog_ops.specs.Plain.{Ops};
    ghost use Rattle.hog_ops.specs.Stored.{coded_ops};

    ghost Value = { Ops };

    ghost coded = { coded_ops };

    ghost use Rattle.hog_ops.specs.Table.{span};
    ghost use Rattle.hog_ops.specs.Valid.{IsCode};
    ghost use Rattle.hog_ops.specs.View.{ops_of};

    ghost view = { λ c. ops_of c.ops.items };

    ghost invariant = { λ c. IsCode (ops_of c.ops.items) × (c.elements ≡ span (ops_of c.ops.items)) };

    ghost size = { span };

    ghost use Rattle.std.proofs.Common.{arith};
    ghost use Rattle.hog_ops.specs.Falls.{most_deep};

    ghost size_decreases = { λ a h. omega (arith, most_deep a.ops.items) };
}

impl Op {
    ghost use Rattle.std.specs.Prelude.{◌≡◌};
    ghost use Rattle.hog_ops.specs.Table.{number, size};
    ghost use Rattle.hog_ops.specs.Valid.{op_allowed};
    ghost use Rattle.hog_ops.specs.View.{op_of};

    /// The number of the operation in the table. Takes no memory.
    pub fn number(&self) -> u8
        ensures { result ≡ number (op_of self.now) }
    {
        match self {
            Op::GetGlobal(_) => 1,
            Op::CallGlobal(_, _) => 2,
            Op::And(_) => 3,
            Op::Or(_) => 4,
            Op::Not => 5,
            Op::Plus => 6,
            Op::Minus => 7,
            Op::Multiply => 8,
            Op::Eq => 11,
            Op::NotEq => 12,
            Op::Gt => 13,
            Op::GtEq => 14,
            Op::Lt => 15,
            Op::LtEq => 16,
            Op::IsIn => 21,
            Op::NotIn => 22,
            Op::PushTrue => 29,
            Op::PushFalse => 30,
            Op::PushNull => 31,
            Op::Str(_) => 32,
            Op::Integer(_) => 33,
            Op::Pop => 35,
            Op::GetLocal(_) => 36,
            Op::SetLocal(_) => 37,
            Op::Return => 38,
            Op::Jump(_) => 39,
            Op::JumpIfFalse(_) => 40,
            Op::Dict(_) => 42,
            Op::Array(_) => 43,
            Op::GetProperty => 45,
            Op::SetProperty => 46,
            Op::JumpIfStackNotNull(_) => 47,
            Op::GetPropertyNullish => 48,
            Op::Throw => 49,
            Op::Try(_) => 50,
            Op::PopTry => 51,
            Op::Callable(_) => 52,
            Op::CallLocal(_) => 54,
            Op::GetUpvalue(_) => 55,
            Op::SetUpvalue(_) => 56,
            Op::CloseUpvalue => 57,
        }
    }

    /// How many elements the operation takes; CALLABLE with its body and its CLOSURE is one
    /// operation. Takes no memory.
    pub fn len(&self) -> usize
        ensures { result ≡ size (op_of self.now) }
    {
        match self {
            Op::Callable(c) => 7 + c.body.elements as usize + 2 * c.captures.items().len(),
            Op::CallGlobal(_, _) => 3,
            Op::GetGlobal(_)
            | Op::And(_)
            | Op::Or(_)
            | Op::Str(_)
            | Op::Integer(_)
            | Op::GetLocal(_)
            | Op::SetLocal(_)
            | Op::Jump(_)
            | Op::JumpIfFalse(_)
            | Op::Dict(_)
            | Op::Array(_)
            | Op::JumpIfStackNotNull(_)
            | Op::Try(_)
            | Op::CallLocal(_)
            | Op::GetUpvalue(_)
            | Op::SetUpvalue(_) => 2,
            Op::Not
            | Op::Plus
            | Op::Minus
            | Op::Multiply
            | Op::Eq
            | Op::NotEq
            | Op::Gt
            | Op::GtEq
            | Op::Lt
            | Op::LtEq
            | Op::IsIn
            | Op::NotIn
            | Op::PushTrue
            | Op::PushFalse
            | Op::PushNull
            | Op::Pop
            | Op::Return
            | Op::GetProperty
            | Op::SetProperty
            | Op::GetPropertyNullish
            | Op::Throw
            | Op::PopTry
            | Op::CloseUpvalue => 1,
        }
    }

    /// Whether the operands are those that the table allows: a count of at least 1 of GET_GLOBAL,
    /// AND and OR, and as many arguments as the native takes. Takes no memory.
    pub fn is_allowed(&self) -> bool
        ensures { result ≡ op_allowed (op_of self.now) }
    {
        match self {
            Op::GetGlobal(n) | Op::And(n) | Op::Or(n) => *n > 0,
            Op::CallGlobal(native, n) => native.takes(*n),
            Op::Callable(c) => {
                // Each code keeps this.
                let _body = &c.body.ops;
                true
            }
            _ => true,
        }
    }
}

impl Code {
    ghost use Rattle.std.specs.Prelude.{◌≡◌, ◌<◌, ◌≤◌, ◌^◌, true, None, List};
    ghost use Rattle.hog_ops.specs.declared.operation.Op.{Op};
    ghost use Rattle.hog_ops.specs.Table.{span};
    ghost use Rattle.hog_ops.specs.Valid.{allowed, lost, height, IsCode};
    ghost use Rattle.hog_ops.specs.View.{ops_of};

    /// The code of these operations. Takes no memory.
    pub fn new(ops: Vec<Op>) -> Code
        requires short { span (ops_of ops.items) < 2 ^ 32 }
        requires operands { allowed (ops_of ops.items) ≡ true }
        requires distances { lost 0 (ops_of ops.items) ≡ None }
        requires nesting { height (ops_of ops.items) ≤ 1000 }
        ensures { result ≡ ops_of ops.items }
    {
        let mut elements = 0;
        for op in &ops {
            elements += op.len() as u32;
        }
        Code { ops, elements }
    }

    /// The operations. Takes no memory.
    pub fn ops(&self) -> &[Op]
        ensures value { ops_of result.now ≡ self.now }
        ensures same { (xs : List Op) → self.now ≡ ops_of xs → result.now ≡ xs }
        ensures code { IsCode self.now }
    {
        self.ops.as_slice()
    }

    /// How many elements the operations take. Takes no memory.
    pub fn elements(&self) -> u32
        ensures { result ≡ span self.now }
    {
        self.elements
    }
}
