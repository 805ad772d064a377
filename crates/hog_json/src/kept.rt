//! JSON texts that are kept: the globals of a run, and the body of a reply.

ghost use Rattle.std.specs.Prelude.{◌≡◌, ◌≤◌, ◌↔◌, Some, None, IfOk, false};
ghost use Rattle.serde_json.specs.Data.{depth};
ghost use Rattle.serde_json.specs.Find.{as_object};
ghost use Rattle.serde_json.specs.Read.{read};
ghost use Rattle.serde_json.specs.View.{view};
ghost use Rattle.serde_json.specs.Written.{compact_text, has_float};
ghost use Rattle.hog_json.specs.Nulled.{count_nulled, globals_data, nulled, nulled_text};

use crate::nulled::{add_nulled, copy_nulled};
use hog_value::HogText;
use serde_json::{Map, Value};
use std::alloc::{AllocError, Global};

/// A kept text of JSON, and how many of its numbers were replaced by null.
#[derive(Drop)]
pub struct GlobalsText {
    pub text: HogText,
    pub nulled: u32,
}

/// Why a value is no globals.
#[derive(Clone, Copy, Debug, PartialEq, Eq)]
pub enum GlobalsStop {
    NotAnObject,
    OutOfMemory,
}

impl From<AllocError> for GlobalsStop {
    ghost use Rattle.std.specs.Prelude.{◌≡◌};
    ghost use Rattle.hog_json.specs.declared.kept.GlobalsStop.TheVariants.{OutOfMemory};

    ghost from_gives = { λ _ e. e ≡ OutOfMemory };

    fn from(_want: AllocError) -> GlobalsStop {
        GlobalsStop::OutOfMemory
    }
}

/// The text of a copy without numbers that aren't whole.
fn text_of(alloc: Global, copy: Value) -> Result<HogText, AllocError>
    requires no_float { has_float (view copy) ≡ false }
    requires nested { depth (view copy) ≤ 127 }
    ensures text { IfOk result (λ t. t ≡ compact_text (view copy)) }
    ensures reads_back { IfOk result (λ t. read t ≡ Some (view copy)) }
{
    Ok(HogText::from_string(copy.to_string(alloc)?))
}

/// The compact text of any value, with null for each number that isn't a whole number of 64 bits.
#[tactic(auto, using(crate::proofs::NulledLemmas::kept))]
pub fn nulled_text(alloc: Global, v: &Value) -> Result<GlobalsText, AllocError>
    requires { depth (view v.now) ≤ 127 }
    ensures text { IfOk result (λ g. g.text ≡ nulled_text (view v.now)) }
    ensures reads_back { IfOk result (λ g. read g.text ≡ Some (nulled (view v.now))) }
    ensures nulled { IfOk result (λ g. g.nulled ≡ count_nulled (view v.now)) }
{
    let nulled = add_nulled(0, v)?;
    let text = text_of(alloc, copy_nulled(alloc, v)?)?;
    Ok(GlobalsText { text, nulled })
}

/// The text of globals: that of a value that is an object.
pub fn globals_text(alloc: Global, v: &Value) -> Result<GlobalsText, GlobalsStop>
    requires { depth (view v.now) ≤ 127 }
    ensures text { IfOk result (λ g. g.text ≡ nulled_text (view v.now)) }
    ensures reads_back { IfOk result (λ g. read g.text ≡ Some (nulled (view v.now))) }
    ensures nulled { IfOk result (λ g. g.nulled ≡ count_nulled (view v.now)) }
    ensures not_an_object { (result ≡ Err GlobalsStop.NotAnObject)
        ↔ (as_object (view v.now) ≡ None) }
{
    if !v.is_object() {
        return Err(GlobalsStop::NotAnObject);
    }
    Ok(nulled_text(alloc, v)?)
}

/// The text of the globals of a run, from its event and its inputs.
#[tactic(auto, using(crate::proofs::NulledLemmas::kept))]
pub fn globals_of(alloc: Global, event: &Value, inputs: &Value) -> Result<GlobalsText, AllocError>
    requires event { depth (view event.now) ≤ 126 }
    requires inputs { depth (view inputs.now) ≤ 126 }
    ensures text { IfOk result
        (λ g. g.text ≡ nulled_text (globals_data (view event.now) (view inputs.now))) }
    ensures reads_back { IfOk result
        (λ g. read g.text ≡ Some (nulled (globals_data (view event.now) (view inputs.now)))) }
    ensures nulled { IfOk result
        (λ g. g.nulled ≡ count_nulled (globals_data (view event.now) (view inputs.now))) }
{
    let counted = add_nulled(0, event)?;
    let nulled = add_nulled(counted, inputs)?;
    let text = text_of(alloc, globals_value(alloc, event, inputs)?)?;
    Ok(GlobalsText { text, nulled })
}

/// The globals of a run, without numbers that aren't whole.
#[tactic(auto, unfolding(crate::specs::Nulled::globals_data))]
fn globals_value(alloc: Global, event: &Value, inputs: &Value) -> Result<Value, AllocError>
    ensures { IfOk result
        (λ v. view v ≡ nulled (globals_data (view event.now) (view inputs.now))) }
{
    let mut members = Map::new(alloc);
    let name = String::from_str(alloc, "event")?;
    drop(members.insert(name, copy_nulled(alloc, event)?)?);
    let name = String::from_str(alloc, "inputs")?;
    drop(members.insert(name, copy_nulled(alloc, inputs)?)?);
    Ok(Value::Object(members))
}
