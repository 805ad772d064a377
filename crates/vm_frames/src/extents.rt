//! What is noted of each place of a code, so that a step counts nothing.

ghost use Rattle.std.specs.Prelude.{◌≡◌, ◌<◌, ◌^◌, ℕ, List, length, IfOk, Some};
ghost use Rattle.hog_meaning.specs.Meaning.{place_in};
ghost use Rattle.vm_frames.specs.Places.{slot_of, slots_of, shown, AreInOrder};
ghost use Rattle.vm_frames.specs.Reading.{text_in, number_of, size_in, extent_of, extents_of, AllKnown};

use crate::literals::{number_of, text_in};
use crate::slots::Slot;
use std::alloc::{AllocError, Global};
use std::convert::AsStr;

/// How many elements the operation has that begins at a place, and the number of its literal. Each is 0 where there is none.
#[derive(Clone, Copy)]
pub(crate) struct Extent {
    pub(crate) size: usize,
    pub(crate) literal: u32,
}

/// How many elements the operation has that begins there. Takes no memory.
fn size_in(slot: Slot) -> usize
    ensures { result ≡ size_in (slot_of slot.entry) }
{
    match slot {
        Slot::Begins(op) => op.len(),
        _ => 0,
    }
}

/// The number of the literal of what stands at a place. Takes no memory.
fn number_in(literals: &[&str], slot: Slot) -> u32
    requires few { length literals.now < 2 ^ 32 }
    requires in_order { AreInOrder literals.now }
    requires known { (t : List ℕ) → text_in (slot_of slot) ≡ Some t → place_in (shown literals.now) t < length literals.now }
    ensures { result ≡ number_of (shown literals.now) (text_in (slot_of slot.entry)) }
{
    match text_in(slot) {
        Some(text) => number_of(literals, text.as_str()),
        None => 0,
    }
}

/// What is noted of a place. Takes no memory.
fn extent_of(literals: &[&str], slot: Slot) -> Extent
    requires few { length literals.now < 2 ^ 32 }
    requires in_order { AreInOrder literals.now }
    requires known { (t : List ℕ) → text_in (slot_of slot) ≡ Some t → place_in (shown literals.now) t < length literals.now }
    ensures { result ≡ extent_of (shown literals.now) (slot_of slot.entry) }
{
    Extent {
        size: size_in(slot),
        literal: number_in(literals, slot),
    }
}

/// What is noted of each place.
pub(crate) fn extents(
    alloc: Global,
    slots: &[Slot],
    literals: &[&str],
) -> Result<Vec<Extent>, AllocError>
    requires few { length literals.now < 2 ^ 32 }
    requires in_order { AreInOrder literals.now }
    requires known { AllKnown (shown literals.now) (slots_of slots.now) }
    ensures { IfOk result (λ es. es.items ≡ extents_of (shown literals.now) (slots_of slots.now)) }
{
    let mut extents = Vec::with_capacity(alloc, slots.len())?;
    for slot in slots {
        extents.push(extent_of(literals, *slot))?;
    }
    Ok(extents)
}
