//! Reading scripts.

ghost use Rattle.std.specs.Prelude.{◌≡◌, ◌≢◌, ◌≤◌, length, IfErr, IfOk};
ghost use Rattle.std.specs.List.{AllZip};
ghost use Rattle.serde_json.specs.Data.{depth};
ghost use Rattle.serde_json.specs.View.{view};
ghost use Rattle.script_reader.specs.Elements.{AreShallow, views};
ghost use Rattle.script_reader.specs.Script.{IsNoScript, IsScript, IsStepOf, NoScriptIn, ScriptIn, StopsIn, most_steps};

use crate::element::step_of;
use crate::source::step_stop;
use crate::step::{ScriptStop, Step};
use serde_json::Value;
use std::alloc::Global;
use std::marker::Model;

/// The most steps of a script.
const MOST_STEPS: usize = 65_536;

/// Steps in order. Contracts see the list.
#[derive(Drop)]
pub struct StepList {
    steps: Vec<Step>,
}

impl Model for StepList {
    ghost use Rattle.std.specs.Prelude.{List};
    ghost use Rattle.script_reader.specs.declared.step.Step.{Step};

    ghost Value = { List Step };

    ghost view = { λ l. l.steps.items };
}

impl StepList {
    ghost use Rattle.std.specs.Prelude.{◌≡◌};

    /// Takes no memory.
    pub fn new(steps: Vec<Step>) -> StepList
        ensures { result ≡ steps.items }
    {
        StepList { steps }
    }

    /// The steps. Takes no memory.
    pub fn items(&self) -> &[Step]
        ensures { result.now ≡ self.now }
    {
        self.steps.as_slice()
    }
}

/// A script: at most 65,536 steps, each fit to be played. Who makes one shows this of the steps.
#[derive(Drop)]
pub struct Script {
    pub steps: StepList,
}

impl Model for Script {
    ghost use Rattle.std.specs.Prelude.{List, length, ◌≤◌};
    ghost use Rattle.std.specs.List.{All};
    ghost use Rattle.script_reader.specs.Script.{most_steps};
    ghost use Rattle.script_reader.specs.Steps.{IsFit};
    ghost use Rattle.script_reader.specs.declared.step.Step.{Step};

    ghost Value = { List Step };

    ghost view = { λ s. s.steps };

    ghost invariant = { λ s. (length s.steps ≤ most_steps) × All IsFit s.steps };
}

/// The script of these elements.
fn script_of(alloc: Global, elements: &[Value]) -> Result<Script, ScriptStop>
    requires shallow { AreShallow elements.now }
    requires few { length elements.now ≤ most_steps }
    ensures steps { IfOk result (AllZip IsStepOf (views elements.now)) }
    ensures stop { IfErr result (λ stop. stop ≢ ScriptStop.OutOfMemory → StopsIn (views elements.now) stop) }
{
    let mut steps = Vec::new(alloc);
    for (n, element) in elements.iter().enumerate() {
        let Some(step) = step_of(alloc, element)? else {
            return Err(ScriptStop::BadStep { step: n as u32 });
        };
        match step_stop(alloc, &step)? {
            Some(stop) => {
                return Err(ScriptStop::BadSource {
                    step: n as u32,
                    stop,
                });
            }
            None => steps.push(step)?,
        }
    }
    Ok(Script {
        steps: StepList::new(steps),
    })
}

/// The script that a JSON value is.
fn script_in(alloc: Global, value: &Value) -> Result<Script, ScriptStop>
    requires { depth (view value.now) ≤ 127 }
    ensures script { IfOk result (ScriptIn (view value.now)) }
    ensures stop { IfErr result (λ stop. stop ≢ ScriptStop.OutOfMemory → NoScriptIn (view value.now) stop) }
{
    let Some(elements) = value.as_array() else {
        return Err(ScriptStop::NotAScript);
    };
    if elements.len() > MOST_STEPS {
        return Err(ScriptStop::TooMany);
    }
    script_of(alloc, elements.as_slice())
}

/// Reads a script: a JSON array of at most 65,536 elements, each a step whose source is built. The refusal is the first
/// that comes: no JSON, no array, too many elements, and then that of the first element that is no step or has a source
/// that isn't built; an element that is no step isn't looked at further. Each comes exactly where its cause is
/// (`script_or_none`).
pub fn read_script(alloc: Global, text: &[u8]) -> Result<Script, ScriptStop>
    ensures script { IfOk result (IsScript text.now) }
    ensures stop { IfErr result (λ stop. stop ≢ ScriptStop.OutOfMemory → IsNoScript text.now stop) }
{
    match Value::from_slice(alloc, text) {
        Ok(value) => script_in(alloc, &value),
        Err(e) if e.is_memory() => Err(ScriptStop::OutOfMemory),
        Err(_) => Err(ScriptStop::NotJson),
    }
}
