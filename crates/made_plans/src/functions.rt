//! The functions of the made plan.

ghost use Rattle.std.specs.Prelude.{◌≡◌, IfOk};
ghost use Rattle.event_plans.specs.Drafts.{function_of, functions_of};
ghost use Rattle.made_plans.specs.Made.{echo, high, made_functions, null_reply, plain_function, sum};

use cyclotron_jobs::{Replies, Reply};
use event_plans::Function;
use hog_value::HogText;
use serde_json::{Map, Value};
use std::alloc::{AllocError, Global};

/// A copy of a text.
fn owned(alloc: Global, text: &str) -> Result<HogText, AllocError>
    ensures { IfOk result (λ t. t ≡ text.now) }
{
    Ok(HogText::from_string(String::from_str(alloc, text)?))
}

/// A function that takes events of every name, without inputs, whose jobs have the priority 0.
fn plain_function(
    alloc: Global,
    name: &str,
    source: &str,
    filter: Option<HogText>,
    answers: Replies,
) -> Result<Function, AllocError>
    ensures { IfOk result (λ f. function_of f ≡ plain_function name.now source.now filter answers) }
{
    Ok(Function {
        name: owned(alloc, name)?,
        source: owned(alloc, source)?,
        filter,
        pattern: None,
        inputs: Value::Object(Map::new(alloc)),
        priority: 0,
        answers,
        size: "{}".len(),
        nulled: 0,
    })
}

/// Prints the number of the event.
fn echo(alloc: Global) -> Result<Function, AllocError>
    ensures { IfOk result (λ f. function_of f ≡ echo) }
{
    let source = "print(event.properties.n);";
    plain_function(alloc, "echo", source, None, Replies::new(Vec::new(alloc)))
}

/// Makes a request for each number of at least 50, and throws where it is at least 90.
fn high(alloc: Global) -> Result<Function, AllocError>
    ensures { IfOk result (λ f. function_of f ≡ high) }
{
    let source = "fetch('https://h/'); if (event.properties.n >= 90) { throw Error('high'); }";
    let filter = owned(alloc, "return event.properties.n >= 50;")?;
    let mut answers = Vec::new(alloc);
    answers.push(Reply::new(alloc, 200, &Value::Null)?)?;
    plain_function(alloc, "high", source, Some(filter), Replies::new(answers))
}

/// Prints the sum of the numbers up to that of the event.
fn sum(alloc: Global) -> Result<Function, AllocError>
    ensures { IfOk result (λ f. function_of f ≡ sum) }
{
    let source =
        "let t := 0; for (let i := 1; i <= event.properties.n; i := i + 1) { t := t + i; } print(t);";
    plain_function(alloc, "sum", source, None, Replies::new(Vec::new(alloc)))
}

/// The functions of each made plan.
pub(crate) fn made_functions(alloc: Global) -> Result<Vec<Function>, AllocError>
    ensures { IfOk result (λ fs. functions_of fs.items ≡ made_functions) }
{
    let mut functions = Vec::new(alloc);
    functions.push(echo(alloc)?)?;
    functions.push(high(alloc)?)?;
    functions.push(sum(alloc)?)?;
    Ok(functions)
}
