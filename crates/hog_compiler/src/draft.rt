//! Codes that are being written.

ghost use Rattle.std.specs.Prelude.{◌≡◌, ◌+◌, IfOk, OnOk};
ghost use Rattle.hog_ops.specs.Plain.{NoOp};
ghost use Rattle.hog_ops.specs.View.{op_of};
ghost use Rattle.hog_ops.specs.Table.{span};
ghost use Rattle.hog_compiler.specs.AddsCode.{AddsCode};
ghost use Rattle.hog_compiler.specs.Pieces.{one};

use hog_ops::{Code, Op};
use std::alloc::{AllocError, Global};
use std::marker::Model;

/// Operations that take fewer than 2^32 elements. Contracts see the plain operations.
#[derive(Drop)]
pub struct Draft {
    ops: Vec<Op>,
    elements: u32,
}

impl Model for Draft {
    ghost use Rattle.std.specs.Prelude.{◌≡◌};
    ghost use Rattle.hog_ops.specs.Plain.{Ops};
    ghost use Rattle.hog_ops.specs.Stored.{coded_ops};
    ghost use Rattle.hog_ops.specs.Table.{span};
    ghost use Rattle.hog_ops.specs.View.{ops_of};

    ghost Value = { Ops };

    ghost coded = { coded_ops };

    ghost view = { λ d. ops_of d.ops.items };

    ghost invariant = { λ d. d.elements ≡ span (ops_of d.ops.items) };
}

// How many elements that are together. As many as 2^32 are answered as want of memory; a program that is read has far fewer.
fn together(elements: u32, more: usize) -> Result<u32, AllocError>
    ensures { IfOk result (λ n. n ≡ elements + more) }
{
    let Some(sum) = more.checked_add(elements as usize) else {
        return Err(AllocError);
    };
    match u32::try_from(sum) {
        Ok(sum) => Ok(sum),
        Err(_) => Err(AllocError),
    }
}

impl Draft {
    ghost use Rattle.std.specs.Prelude.{◌<◌, ◌≤◌, ◌^◌, true, None};
    ghost use Rattle.hog_ops.specs.Valid.{allowed, lost, height};

    /// Takes no memory.
    pub fn new(alloc: Global) -> Draft
        ensures { result ≡ NoOp }
    {
        Draft {
            ops: Vec::new(alloc),
            elements: 0,
        }
    }

    /// Where its memory comes from. Takes no memory.
    pub fn allocator(&self) -> Global {
        *self.ops.allocator()
    }

    /// How many elements the operations take. Takes no memory.
    pub fn span(&self) -> u32
        ensures { result ≡ span self.now }
    {
        self.elements
    }

    /// With one operation more.
    pub fn push(&mut self, op: Op) -> Result<(), AllocError>
        ensures { OnOk result (AddsCode self.old self.new (one (op_of op))) }
    {
        let elements = together(self.elements, op.len())?;
        self.ops.push(op)?;
        self.elements = elements;
        Ok(())
    }

    /// With the operations of another behind.
    pub fn append(&mut self, mut other: Draft) -> Result<(), AllocError>
        ensures { OnOk result (AddsCode self.old self.new other) }
    {
        let elements = together(self.elements, other.elements as usize)?;
        self.ops.append(&mut other.ops)?;
        self.elements = elements;
        Ok(())
    }

    /// The code of operations that are one. Takes no memory.
    pub fn into_code(self) -> Code
        requires operands { allowed self ≡ true }
        requires distances { lost 0 self ≡ None }
        requires nesting { height self ≤ 1000 }
        ensures { result ≡ self }
    {
        Code::new(self.ops)
    }
}
