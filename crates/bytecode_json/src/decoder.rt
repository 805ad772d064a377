//! Reading the text of a code.

ghost use Rattle.std.specs.Prelude.{◌≡◌, ◌≤◌, ◌<◌, ◌^◌, ℕ, List, length, IfOk, Ok, Err, Some};
ghost use Rattle.std.specs.Str.{IsUtf8};
ghost use Rattle.serde_json.specs.Data.{Data};
ghost use Rattle.serde_json.specs.Find.{as_array, as_str};
ghost use Rattle.serde_json.specs.Read.{read};
ghost use Rattle.serde_json.specs.View.{view};
ghost use Rattle.serde_json.specs.Written.{compact_text};
ghost use Rattle.bytecode_front.specs.Front.{whole_in};
ghost use Rattle.bytecode_front.specs.Reading.{read_ops};
ghost use Rattle.bytecode_builder.specs.Placed.{Answers, placed};
ghost use Rattle.bytecode_json.specs.Text.{code_text, decode_of, max_room, is_word, behind_version, behind_header, of_array, of_elements, IsShort};
ghost use Rattle.bytecode_front.specs.Views.{views};
ghost use Rattle.bytecode_json.specs.Written.{Behind};

use bytecode_builder::build::build;
use bytecode_builder::scan::scan;
use bytecode_front::stop::CodeStop;
use hog_ops::Code;
use serde_json::Value;
use std::alloc::Global;

/// How many bodies may stand in one another.
const ROOM: u16 = 1000;

fn is_word(v: &Value, word: &str) -> bool
    ensures { result ≡ is_word word.now (as_str (view v.now)) }
{
    match v.as_str() {
        Some(s) => s == word,
        None => false,
    }
}

fn behind_version<'a>(v: &Value, rest: &'a [Value]) -> Result<&'a [Value], CodeStop>
    ensures { Behind result (behind_version (whole_in (view v.now)) (views rest.now)) }
{
    match v.as_i64() {
        Some(1) => Ok(rest),
        Some(found) => Err(CodeStop::Version { found }),
        None => Err(CodeStop::NoHeader),
    }
}

/// The elements behind the header.
fn behind_header(items: &[Value]) -> Result<&[Value], CodeStop>
    ensures { Behind result (behind_header (views items.now)) }
{
    match items {
        [header, version, rest @ ..] => {
            if is_word(header, "_H") {
                behind_version(version, rest)
            } else {
                Err(CodeStop::NoHeader)
            }
        }
        _ => Err(CodeStop::NoHeader),
    }
}

/// The code of the elements behind the header.
fn code_of(alloc: Global, elements: &[Value]) -> Result<Code, CodeStop>
    requires { length elements.now < 2 ^ 32 }
    ensures { Answers result (placed 2 (read_ops max_room 2 (views elements.now))) }
{
    let mut marks = Vec::new(alloc);
    match scan(elements, ROOM, 2, &mut marks) {
        Ok(()) => {
            marks.push(ROOM + 1)?;
            build(alloc, elements, ROOM, 2, &marks)
        }
        Err(fault) => Err(fault),
    }
}

/// The code of the elements of an array.
fn code_in(alloc: Global, items: &[Value]) -> Result<Code, CodeStop>
    requires { length items.now < 2 ^ 32 }
    ensures { Answers result (of_elements (behind_header (views items.now))) }
{
    match behind_header(items) {
        Ok(elements) => code_of(alloc, elements),
        Err(stop) => Err(stop),
    }
}

/// The code of a JSON value.
fn code_from(alloc: Global, v: &Value) -> Result<Code, CodeStop>
    requires { IsShort (as_array (view v.now)) }
    ensures { Answers result (of_array (as_array (view v.now))) }
{
    match v.as_array() {
        Some(items) => code_in(alloc, items.as_slice()),
        None => Err(CodeStop::NoHeader),
    }
}

#[tactic(auto, unfolding(crate::specs::Text::decode_of))]
fn decode_text(alloc: Global, text: &[u8]) -> Result<Code, CodeStop>
    requires { length text.now ≤ 16777216 }
    ensures exact { IsUtf8 text.now → Answers result (decode_of text.now) }
    ensures not_utf8 { ¬ (IsUtf8 text.now) → Answers result (Err CodeStop.NotJson) }
    ensures utf8 { IfOk result (λ _. IsUtf8 text.now) }
{
    match Value::from_slice(alloc, text) {
        Ok(v) => code_from(alloc, &v),
        Err(e) if e.is_memory() => Err(CodeStop::OutOfMemory),
        Err(_) => Err(CodeStop::NotJson),
    }
}

/// The code of a text of at most 16,777,216 bytes, or the first refusal: it is no JSON, it has no
/// header, or that of another version; then the first fault from the left; and after all these
/// the first operation whose distance leads nowhere.
pub fn decode(alloc: Global, text: &[u8]) -> Result<Code, CodeStop>
    requires { length text.now ≤ 16777216 }
    ensures exact { IsUtf8 text.now → Answers result (decode_of text.now) }
    ensures not_utf8 { ¬ (IsUtf8 text.now) → Answers result (Err CodeStop.NotJson) }

    // What was decoded encodes as the compact text of the same array.
    ensures same { IfOk result
        (λ c. (d : Data) × (read text.now ≡ Some d) × (code_text c ≡ compact_text d)) }
{
    decode_text(alloc, text)
}
