//! The globals of a function for an event.

ghost use Rattle.std.specs.Prelude.{◌≡◌, ◌+◌, ◌≤◌, IfOk};
ghost use Rattle.serde_json.specs.Data.{Data, depth};
ghost use Rattle.serde_json.specs.View.{view};
ghost use Rattle.hog_json.specs.Nulled.{count_nulled, globals_data};
ghost use Rattle.event_plans.specs.Event.{size_of};

use serde_json::{Map, Value};
use std::alloc::{AllocError, Global};

/// The object of an event and of the inputs of a function.
#[tactic(auto, unfolding(hog_json::specs::Nulled::globals_data))]
pub fn globals_value(alloc: Global, event: &Value, inputs: &Value) -> Result<Value, AllocError>
    requires event { depth (view event.now) ≤ 126 }
    requires inputs { depth (view inputs.now) ≤ 126 }
    ensures value { IfOk result
        (λ v. view v ≡ globals_data (view event.now) (view inputs.now)) }
    ensures nested { IfOk result (λ v. depth (view v) ≤ 127) }
{
    let mut members = Map::new(alloc);
    let name = String::from_str(alloc, "event")?;
    drop(members.insert(name, event.clone()?)?);
    let name = String::from_str(alloc, "inputs")?;
    drop(members.insert(name, inputs.clone()?)?);
    Ok(Value::Object(members))
}

/// The text of globals is twenty bytes longer than those of their parts. The function does nothing: its clauses are
/// the laws.
pub fn globals_size()
    ensures size { (event inputs : Data)
        → size_of (globals_data event inputs) ≡ size_of event + size_of inputs + 20 }
    ensures nulled { (event inputs : Data)
        → count_nulled (globals_data event inputs) ≡ count_nulled event + count_nulled inputs }
{}
