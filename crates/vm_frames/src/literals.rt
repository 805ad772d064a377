//! The texts of a code's STRING operations, and their numbers.

ghost use Rattle.std.specs.Prelude.{◌≡◌, ◌<◌, ◌^◌, length, IfOk};
ghost use Rattle.std.specs.List.{filter_map};
ghost use Rattle.std.specs.Option.{option_copied};
ghost use Rattle.hog_meaning.specs.Meaning.{place_in};
ghost use Rattle.vm_frames.specs.Places.{slot_of, slots_of, shown, AreInOrder};
ghost use Rattle.vm_frames.specs.Reading.{text_in, distinct};

use crate::slots::Slot;
use hog_ops::Op;
use hog_value::HogText;
use std::alloc::{AllocError, Global};
use std::collections::BTreeSet;
use std::convert::AsStr;

/// The text of a STRING operation that begins there.
pub(crate) fn text_in<'c>(slot: Slot<'c>) -> Option<&'c HogText>
    ensures { option_copied result ≡ text_in (slot_of slot.entry) }
{
    match slot {
        Slot::Begins(Op::Str(text)) => Some(text),
        _ => None,
    }
}

fn literal_set<'c>(alloc: Global, slots: &[Slot<'c>]) -> Result<BTreeSet<&'c str>, AllocError>
    ensures { IfOk result
        (λ set. shown set.keys ≡ distinct (filter_map text_in (slots_of slots.now))) }
{
    let mut texts = BTreeSet::new(alloc);
    for slot in slots {
        if let Some(text) = text_in(*slot) {
            texts.insert(text.as_str())?;
        }
    }
    Ok(texts)
}

/// The distinct texts in byte order.
pub(crate) fn literals<'c>(alloc: Global, slots: &[Slot<'c>]) -> Result<Vec<&'c str>, AllocError>
    ensures distinct { IfOk result (λ ts. shown ts.items ≡ distinct (filter_map text_in (slots_of slots.now))) }
    ensures in_order { IfOk result (λ ts. AreInOrder ts.items) }
{
    let set = literal_set(alloc, slots)?;
    let mut texts = Vec::with_capacity(alloc, set.len())?;
    for text in &set {
        texts.push(*text)?;
    }
    Ok(texts)
}

/// The number of a text that is there. Takes no memory.
pub(crate) fn number_of(literals: &[&str], text: &str) -> u32
    requires few { length literals.now < 2 ^ 32 }
    requires in_order { AreInOrder literals.now }
    requires known { place_in (shown literals.now) text.now < length literals.now }
    ensures { result ≡ place_in (shown literals.now) text.now }
{
    match literals.binary_search(&text) {
        Ok(number) => number as u32,
        Err(_) => unreachable!(),
    }
}
