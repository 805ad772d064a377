//! A call of a native.

ghost use Rattle.std.specs.Prelude.{◌≡◌, ◌<◌, ◌≤◌, ◌++◌, length, All, IsTrue, IfOk, OnErr, OnOk, string_bytes, codes};
ghost use Rattle.std.specs.List.{join_by};
ghost use Rattle.hog_value.specs.declared.cell.FunCell.{FunCell};
ghost use Rattle.hog_value.specs.Values.{NamesBelow};
ghost use Rattle.hog_value.specs.Natives.{takes_of};
ghost use Rattle.hog_value.specs.Cells.{IsCovered};
ghost use Rattle.hog_json.specs.Texts.{shown, json_text_of};
ghost use Rattle.hog_json.specs.Reading.{Grows};
ghost use Rattle.hog_library.specs.Called.{Asks, UnitsSpent, asks, called, print_called, fetch_called, of_outcome};
ghost use Rattle.hog_library.specs.Natives.{json_parse_called};
ghost use Rattle.hog_library.specs.Answers.{Follows, given_made, IsPlain, plain_called};
ghost use Rattle.hog_library.specs.Products.{Makes, Finds};

use crate::given::{are_options, argument, text_given, units_left};
use crate::making::{error, make, make_blocked};
use crate::product::Product;
use crate::stop::NativeStop;
use crate::text_natives::put_shown;
use crate::{date_natives, list_natives, text_natives, texts};
use hog_json::{JsonStop, json_read, json_text};
use hog_value::{Heap, HogText, Kind, Meter, Native, Request, Stop, Value};
use std::alloc::{AllocError, Global};
use std::convert::AsStr;

/// What a call of a native gives.
#[derive(Drop)]
pub enum NativeAnswer {
    /// The value that the program goes on with.
    Gives(Value),
    /// A text that is shown; the program goes on with null.
    Prints(HogText),
    /// The program sees this kind thrown.
    Throws(Kind),
    /// The run waits for the reply to this request.
    Asks(Request),
}

/// Why a call of a native stopped. It has then changed nothing.
#[derive(Clone, Copy, Debug, PartialEq, Eq)]
pub enum CallStop {
    /// No turn is left for a `fetch`.
    TurnsSpent,
    /// The charge doesn't fit.
    UnitsSpent,
    OutOfMemory,
}

impl From<AllocError> for CallStop {
    ghost use Rattle.std.specs.Prelude.{◌≡◌};
    ghost use Rattle.hog_library.specs.declared.call.CallStop.TheVariants.{OutOfMemory};

    ghost from_gives = { λ _ e. e ≡ OutOfMemory };

    fn from(_want: AllocError) -> CallStop {
        CallStop::OutOfMemory
    }
}

impl From<Stop> for CallStop {
    ghost use Rattle.std.specs.Prelude.{◌≡◌};
    ghost use Rattle.hog_library.specs.Answers.{call_stop};

    ghost from_gives = { λ stop e. e ≡ call_stop stop };

    fn from(stop: Stop) -> CallStop {
        match stop {
            Stop::UnitsSpent => CallStop::UnitsSpent,
            Stop::OutOfMemory => CallStop::OutOfMemory,
        }
    }
}

/// Adds a space and the shown text of a value to a text of at most `units` bytes.
fn put_spaced(
    alloc: Global,
    text: &mut String,
    heap: &Heap,
    v: Value,
    units: u32,
) -> Result<(), Stop>
    requires fits { length (string_bytes text.old) ≤ units }
    requires names { NamesBelow (length heap.now) v }
    ensures ok { OnOk result (string_bytes text.new ≡ string_bytes text.old ++ (codes " " ++ shown heap.now v)) }
    ensures fits { length (string_bytes text.new) ≤ units }
    ensures spent { result ≡ Err Stop.UnitsSpent
        → units < length (string_bytes text.old ++ (codes " " ++ shown heap.now v)) }
{
    texts::put(text, " ", units)?;
    put_shown(alloc, text, heap, v, units)
}

/// The shown texts of values with a space between each two, of at most `units` bytes.
fn printed(alloc: Global, args: &[Value], heap: &Heap, units: u32) -> Result<HogText, Stop>
    requires { All (NamesBelow (length heap.now)) args.now }
    ensures ok { IfOk result (λ made. made ≡ join_by (shown heap.now) (codes " ") args.now) }
    ensures spent { result ≡ Err Stop.UnitsSpent
        → units < length (join_by (shown heap.now) (codes " ") args.now) }
{
    let mut made = String::new(alloc);
    if args.is_empty() {
        return Ok(HogText::from_string(made));
    }
    put_shown(alloc, &mut made, heap, args[0], units)?;
    for i in 1..args.len() {
        put_spaced(alloc, &mut made, heap, args[i], units)?;
    }
    Ok(HogText::from_string(made))
}

/// print(x, ..)
#[tactic(auto, unfolding(crate::specs::Called::print_called))]
fn print(
    alloc: Global,
    args: &[Value],
    heap: &Heap,
    m: &mut Meter,
) -> Result<NativeAnswer, CallStop>
    requires names { All (NamesBelow (length heap.now)) args.now }
    requires covered { IsCovered heap.now m.old.units }
    ensures { Follows (print_called args.now heap.now m.old) result heap.now heap.now m.old m.new }
{
    let text = printed(alloc, args, heap, units_left(m))?;
    if !m.spend_units(text.bytes().len() as u64) {
        return Err(CallStop::UnitsSpent);
    }
    Ok(NativeAnswer::Prints(text))
}

/// The request for a URL, which is charged. Where it stops, the meter is as before.
fn request(
    alloc: Global,
    url: &HogText,
    options: Value,
    heap: &Heap,
    m: &mut Meter,
) -> Result<Request, Stop>
    requires { NamesBelow (length heap.now) options }
    ensures ok { IfOk result (λ asked. asks {F = FunCell} (record { url = url.now; options = json_text_of heap.now options }) m.old ≡ Asks asked m.new) }
    ensures spent { result ≡ Err Stop.UnitsSpent → asks {F = FunCell} (record { url = url.now; options = json_text_of heap.now options }) m.old ≡ UnitsSpent }
    ensures err { OnErr result (m.new ≡ m.old) }
    ensures more { m.old.units ≤ m.new.units }
{
    let left = units_left(m);
    if url.bytes().len() > left as usize {
        return Err(Stop::UnitsSpent);
    }
    let copy = url.copy()?;
    let options = json_text(alloc, heap, options, left - url.bytes().len() as u32)?;
    if !m.spend_units(url.bytes().len() as u64 + options.bytes().len() as u64) {
        return Err(Stop::UnitsSpent);
    }
    Ok(Request { url: copy, options })
}

/// fetch(url), fetch(url, options)
#[tactic(auto, unfolding(crate::specs::Called::fetch_called))]
fn fetch(
    alloc: Global,
    args: &[Value],
    heap: &mut Heap,
    m: &mut Meter,
) -> Result<NativeAnswer, CallStop>
    requires names { All (NamesBelow (length heap.old)) args.now }
    requires covered { IsCovered heap.old m.old.units }
    ensures { Follows (fetch_called args.now heap.old m.old) result heap.old heap.new m.old m.new }
{
    let options = argument(args, 1);
    let Some(url) = text_given(heap, argument(args, 0)) else {
        return Ok(NativeAnswer::Throws(Kind::TypeError));
    };
    if !are_options(heap, options) {
        return Ok(NativeAnswer::Throws(Kind::TypeError));
    }
    let mut spent = *m;
    if !spent.spend_turn() {
        return Err(CallStop::TurnsSpent);
    }
    if texts::is_allowed(url) {
        let asked = request(alloc, url, options, heap, &mut spent)?;
        *m = spent;
        return Ok(NativeAnswer::Asks(asked));
    }
    let v = make_blocked(alloc, heap, &mut spent)?;
    *m = spent;
    Ok(NativeAnswer::Gives(v))
}

/// jsonParse(text)
#[tactic(auto, unfolding(crate::specs::Natives::json_parse_called))]
fn json_parse(
    alloc: Global,
    args: &[Value],
    heap: &mut Heap,
    m: &mut Meter,
) -> Result<NativeAnswer, CallStop>
    requires names { All (NamesBelow (length heap.old)) args.now }
    requires covered { IsCovered heap.old m.old.units }
    ensures { Follows (of_outcome (json_parse_called args.now heap.old m.old.units) m.old) result heap.old heap.new m.old m.new }
{
    let Some(text) = text_given(heap, argument(args, 0)) else {
        return Ok(NativeAnswer::Throws(Kind::TypeError));
    };
    // The heap changes while the text is read.
    let text = text.copy()?;
    match json_read(alloc, heap, &text, m) {
        Ok(v) => Ok(NativeAnswer::Gives(v)),
        Err(JsonStop::BadJson) => Ok(NativeAnswer::Throws(Kind::JsonError)),
        Err(JsonStop::UnitsSpent) => Err(CallStop::UnitsSpent),
        Err(JsonStop::OutOfMemory) => Err(CallStop::OutOfMemory),
    }
}

/// A value that was made, as an answer.
fn given(made: Result<Value, Stop>) -> Result<NativeAnswer, CallStop>
    ensures { result ≡ given_made made }
{
    Ok(NativeAnswer::Gives(made?))
}

/// What a native finds out that only works on the heap, in one step.
fn found(
    alloc: Global,
    native: Native,
    args: &[Value],
    heap: &Heap,
    m: &Meter,
) -> Result<Product, NativeStop>
    requires names { All (NamesBelow (length heap.now)) args.now }
    requires plain { IsPlain native }
    ensures { Finds (plain_called native args.now heap.now m.now.units) result heap.now m.now.units }
{
    match native {
        Native::Length => list_natives::length(args, heap, m),
        Native::Concat => text_natives::concat(alloc, args, heap, m),
        Native::ToString => text_natives::to_string(alloc, args, heap, m),
        Native::ToInt => list_natives::to_int(args, heap, m),
        Native::Upper => text_natives::upper(alloc, args, heap, m),
        Native::Lower => text_natives::lower(alloc, args, heap, m),
        Native::Trim => text_natives::trim(alloc, args, heap, m),
        Native::StartsWith => text_natives::starts_with(args, heap, m),
        Native::ReplaceAll => text_natives::replace_all(alloc, args, heap, m),
        Native::SplitByString => text_natives::split(alloc, args, heap, m),
        Native::Keys => list_natives::keys(alloc, args, heap, m),
        Native::Values => list_natives::values(alloc, args, heap, m),
        Native::Has => list_natives::has(args, heap, m),
        Native::ArrayPushBack => list_natives::push_back(alloc, args, heap, m),
        Native::Empty => list_natives::empty(args, heap, m),
        Native::JsonStringify => text_natives::json_stringify(alloc, args, heap, m),
        Native::DateAdd => date_natives::date_add(alloc, args, heap, m),
        Native::DateDiff => date_natives::date_diff(args, heap, m),
        Native::Weekday => date_natives::week_day(args, heap, m),
        Native::Print | Native::Fetch | Native::JsonParse | Native::Error => unreachable!(),
    }
}

/// A native that only works on the heap, in one step.
fn plain(
    alloc: Global,
    native: Native,
    args: &[Value],
    heap: &mut Heap,
    m: &mut Meter,
) -> Result<NativeAnswer, CallStop>
    requires names { All (NamesBelow (length heap.old)) args.now }
    requires covered { IsCovered heap.old m.old.units }
    requires plain { IsPlain native }
    ensures { Follows (of_outcome (plain_called native args.now heap.old m.old.units) m.old) result heap.old heap.new m.old m.new }
{
    match found(alloc, native, args, heap, m) {
        Ok(product) => given(make(alloc, product, heap, m)),
        Err(NativeStop::Thrown(kind)) => Ok(NativeAnswer::Throws(kind)),
        Err(NativeStop::UnitsSpent) => Err(CallStop::UnitsSpent),
        Err(NativeStop::OutOfMemory) => Err(CallStop::OutOfMemory),
    }
}

/// Calls a native. The values name cells of the heap, the native takes that many arguments, and at least eight units are
/// spent for each cell. After a refusal and after a thrown kind, heap and meter are as before.
pub fn call_native(
    alloc: Global,
    native: Native,
    args: &[Value],
    heap: &mut Heap,
    m: &mut Meter,
) -> Result<NativeAnswer, CallStop>
    requires names { All (NamesBelow (length heap.old)) args.now }
    requires count { IsTrue (takes_of native (length args.now)) }
    requires covered { IsCovered heap.old m.old.units }
    ensures { Follows (called native args.now heap.old m.old) result heap.old heap.new m.old m.new }
{
    match native {
        Native::Print => print(alloc, args, heap, m),
        Native::Fetch => fetch(alloc, args, heap, m),
        Native::JsonParse => json_parse(alloc, args, heap, m),
        Native::Error => given(error(alloc, args, heap, m)),
        _ => plain(alloc, native, args, heap, m),
    }
}
