//! JSON values of null, truth values, whole numbers of 64 bits, texts and arrays: their compact
//! text reads as that value again.
//! Stands on no crate of the repository.
//! Above, the inverse laws of formats cite `reads_back`, and build what it asks by the words of
//! `Fine` (plain values of a bounded depth, part by part).
#![tactic(auto)]

ghost use Rattle.plain_json.specs.Plain.{ReadsBack};

/// A law alone: the compact text of a plain value reads as that value.
pub fn reads_back()
    ensures { ReadsBack }
{}
