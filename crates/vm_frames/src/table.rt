//! A code as the machine reads it.

ghost use Rattle.std.specs.Prelude.{◌≡◌, ◌+◌, ◌<◌, ◌^◌, ℕ, List, length, slice_get, option_map, IfOk, IfNone, IfSome, Some};
ghost use Rattle.hog_meaning.specs.Meaning.{place_in};
ghost use Rattle.hog_ops.specs.Plain.{Str};
ghost use Rattle.hog_ops.specs.Table.{row, size};
ghost use Rattle.hog_ops.specs.View.{op_of};
ghost use Rattle.vm_course.specs.Fits.{OpFits};
ghost use Rattle.vm_course.specs.Belongs.{is_place};
ghost use Rattle.vm_course.specs.State.{Begins, params_at};
ghost use Rattle.vm_frames.specs.Places.{slot_of};
ghost use Rattle.vm_frames.specs.Reading.{reading_of, BeginsNone, LeadsNear};

use crate::extents::{Extent, extents};
use crate::literals::literals;
use crate::slots::{Slot, slots};
use hog_ops::{Code, Op};
use hog_value::HogText;
use std::alloc::{AllocError, Global};
use std::marker::Model;
use vm_course::laws;

/// An operation of a code: the place behind it, and the number of its literal where it is a STRING, 0 where it is not.
#[derive(Clone, Copy, Drop)]
pub struct Begin<'c> {
    pub op: &'c Op,
    pub behind: u32,
    pub literal: u32,
}

/// What stands at each place of a code, of which there are fewer than 2^32, what is noted of it, and the distinct
/// texts of its STRING operations in byte order. It is built once, in time linear in the code but for the look-up of
/// each text, and then answers in constant time.
#[derive(Drop)]
pub struct Table<'c> {
    slots: Vec<Slot<'c>>,
    literals: Vec<&'c str>,
    extents: Vec<Extent>,
}

impl<'c> Model for Table<'c> {
    ghost use Rattle.vm_frames.specs.Reading.{Reading, coded_reading};

    ghost Value = { Reading };

    ghost coded = { coded_reading };

    ghost use Rattle.vm_frames.specs.Reading.{IsTable};
    ghost use Rattle.vm_frames.specs.Places.{slots_of, shown};

    ghost view = { λ t. record { slots = slots_of t.slots.items; literals = shown t.literals.items } };

    ghost invariant = { λ t. IsTable (record { slots = slots_of t.slots.items; literals = shown t.literals.items }) t.extents.items };
}

impl<'c> Table<'c> {
    /// The table of a code. One of 2^32 - 2 elements or more is answered as want of memory.
    pub fn new(alloc: Global, code: &'c Code) -> Result<Table<'c>, AllocError>
        ensures { IfOk result (λ t. t ≡ reading_of code.now) }
    {
        if code.elements() >= u32::MAX - 1 {
            return Err(AllocError);
        }
        // Each operation of a code leads to a place of it.
        laws::codes_fit();
        laws::codes_count();
        let _ops = code.ops();
        let slots = slots(alloc, code)?;
        let literals = literals(alloc, &slots)?;
        let extents = extents(alloc, &slots, &literals)?;
        Ok(Table {
            slots,
            literals,
            extents,
        })
    }

    /// What stands at a place. Takes no memory.
    fn slot(&self, place: u32) -> Option<Slot<'c>>
        ensures { option_map slot_of result ≡ slice_get self.now.slots place }
    {
        self.slots.get(place as usize).copied()
    }

    /// The operation that begins at a place. Takes no memory.
    pub fn at(&self, place: u32) -> Option<Begin<'c>>
        ensures begins { IfSome result (λ b. slice_get self.now.slots place ≡ Some (Begins (op_of b.op.now))) }
        ensures none { IfNone result (BeginsNone (slice_get self.now.slots place)) }
        ensures behind { IfSome result (λ b. b.behind ≡ place + size (op_of b.op.now)) }
        ensures fits { IfSome result (λ b. OpFits self.now.slots b.behind (op_of b.op.now)) }
        ensures near { IfSome result (λ b. LeadsNear b.behind (row (op_of b.op.now))) }
        ensures literal { IfSome result (λ b. (t : List ℕ) → op_of b.op.now ≡ Str t → b.literal ≡ place_in self.now.literals t) }
        ensures known { IfSome result (λ b. (t : List ℕ) → op_of b.op.now ≡ Str t → b.literal < length self.now.literals) }
    {
        match self.slot(place) {
            Some(Slot::Begins(op)) => {
                let extent = self.extents[place as usize];
                Some(Begin {
                    op,
                    behind: place + extent.size as u32,
                    literal: extent.literal,
                })
            }
            _ => None,
        }
    }

    /// How many parameters the function whose body begins at a place has. Takes no memory.
    pub fn params(&self, place: u32) -> Option<u32>
        ensures { result ≡ params_at self.now.slots place }
    {
        match self.slot(place.saturating_sub(5)) {
            Some(Slot::Begins(Op::Callable(function))) => Some(function.params),
            _ => None,
        }
    }

    /// Whether a frame may stand at a place: where an operation begins, where a body ends, or behind the last operation.
    /// Takes no memory.
    pub fn is_place(&self, place: u32) -> bool
        ensures { result ≡ is_place self.now.slots place }
    {
        match self.slots.get(place as usize) {
            Some(Slot::Operand) => false,
            Some(_) => true,
            None => place as usize == self.slots.len(),
        }
    }

    /// Copies of the texts, which are a run's first cells.
    pub fn literals(&self, alloc: Global) -> Result<Vec<HogText>, AllocError>
        ensures { IfOk result (λ ts. ts.items ≡ self.now.literals) }
    {
        let mut texts = Vec::new(alloc);
        for text in &self.literals {
            texts.push(HogText::from_string(String::from_str(alloc, *text)?))?;
        }
        Ok(texts)
    }
}
