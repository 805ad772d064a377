//! Making cells, all of them or none.

ghost use Rattle.std.specs.Prelude.{◌≡◌, ◌<◌, length, take, All, IfOk, OnOk, OnErr};
ghost use Rattle.hog_value.specs.Values.{NamesBelow};
ghost use Rattle.hog_value.specs.Cells.{IsCovered, IsClosed, Text};
ghost use Rattle.hog_value.specs.Operations.{Gives, Spends, made};
ghost use Rattle.hog_json.specs.Reading.{Grows, outcome_and_then, read_cells, kept_value};
ghost use Rattle.hog_library.specs.Cells.{texts_made, array_of_texts, error_pairs, error_cell, response_pairs, response_cell, response, thrown, blocked, kind_name, kind_message};
ghost use Rattle.hog_library.specs.Given.{argument};
ghost use Rattle.hog_library.specs.Natives.{error_called};
ghost use Rattle.hog_library.specs.Products.{Makes, Tries, ProductNames, product_made};

use crate::given::{argument, units_left};
use crate::product::Product;
use crate::texts;
use hog_json::{JsonStop, json_read};
use hog_value::{Cell, Heap, HogText, Items, Kind, Meter, Pairs, Stop, Value};
use indexmap::IndexMap;
use std::alloc::{AllocError, Global};

/// What was made, or nothing: where the making stopped, the heap has only its first `cells` cells again, and the meter
/// is `meter`.
pub(crate) fn or_undone(
    made: Result<Value, Stop>,
    cells: usize,
    meter: Meter,
    heap: &mut Heap,
    m: &mut Meter,
) -> Result<Value, Stop>
    requires { IsClosed (take cells heap.old) }
    ensures same { result ≡ made }
    ensures ok { OnOk made (heap.new ≡ heap.old) }
    ensures ok_meter { OnOk made (m.new ≡ m.old) }
    ensures err { OnErr made (heap.new ≡ take cells heap.old) }
    ensures err_meter { OnErr made (m.new ≡ meter) }
{
    if made.is_err() {
        heap.truncate(cells);
        *m = meter;
    }
    made
}

/// Makes a text.
pub(crate) fn make_text(
    alloc: Global,
    text: &str,
    heap: &mut Heap,
    m: &mut Meter,
) -> Result<Value, Stop>
    requires { IsCovered heap.old m.old.units }
    ensures { Makes (made (Text text.now) heap.old m.old.units) result heap.old heap.new m.old m.new }
{
    let copy = texts::copied(alloc, text, units_left(m))?;
    heap.make(Cell::Text(HogText::from_string(copy)), m)
}

/// The pairs of an error.
fn error_pairs(
    alloc: Global,
    name: Value,
    message: Value,
    payload: Value,
) -> Result<Pairs, AllocError>
    ensures { IfOk result (λ pairs. pairs ≡ error_pairs name message payload) }
{
    let mut pairs = IndexMap::new(alloc);
    pairs.insert(text(alloc, "type")?, name)?;
    pairs.insert(text(alloc, "message")?, message)?;
    pairs.insert(text(alloc, "payload")?, payload)?;
    Ok(Pairs::new(pairs))
}

/// A text with these bytes.
fn text(alloc: Global, s: &str) -> Result<HogText, AllocError>
    ensures { IfOk result (λ t. t ≡ s.now) }
{
    Ok(HogText::from_string(String::from_str(alloc, s)?))
}

/// Makes the dictionary that an error is.
pub(crate) fn make_error(
    alloc: Global,
    name: Value,
    message: Value,
    payload: Value,
    heap: &mut Heap,
    m: &mut Meter,
) -> Result<Value, Stop>
    requires name { NamesBelow (length heap.old) name }
    requires message { NamesBelow (length heap.old) message }
    requires payload { NamesBelow (length heap.old) payload }
    requires covered { IsCovered heap.old m.old.units }
    ensures { Makes (made (error_cell name message payload) heap.old m.old.units) result heap.old heap.new m.old m.new }
{
    let pairs = error_pairs(alloc, name, message, payload)?;
    heap.make(Cell::Dict(pairs), m)
}

/// The pairs of a response.
fn response_pairs(alloc: Global, status: u16, body: Value) -> Result<Pairs, AllocError>
    ensures { IfOk result (λ pairs. pairs ≡ response_pairs status body) }
{
    let mut pairs = IndexMap::new(alloc);
    pairs.insert(text(alloc, "status")?, Value::Int(i64::from(status)))?;
    pairs.insert(text(alloc, "body")?, body)?;
    Ok(Pairs::new(pairs))
}

/// Makes the dictionary that a response is.
pub(crate) fn make_response(
    alloc: Global,
    status: u16,
    body: Value,
    heap: &mut Heap,
    m: &mut Meter,
) -> Result<Value, Stop>
    requires body { NamesBelow (length heap.old) body }
    requires covered { IsCovered heap.old m.old.units }
    ensures { Makes (made (response_cell status body) heap.old m.old.units) result heap.old heap.new m.old m.new }
{
    let pairs = response_pairs(alloc, status, body)?;
    heap.make(Cell::Dict(pairs), m)
}

/// Makes texts, as long as they fit.
fn make_texts(
    alloc: Global,
    texts: Vec<HogText>,
    heap: &mut Heap,
    m: &mut Meter,
) -> Result<Vec<Value>, Stop>
    requires { IsCovered heap.old m.old.units }
    ensures ok { IfOk result (λ vs. texts_made texts.items heap.old m.old.units ≡ Gives vs.items heap.new m.new.units) }
    ensures names { IfOk result (λ vs. All (NamesBelow (length heap.new)) vs.items) }
    ensures turns_and_depth { m.new ≡ record m.old { units = m.new.units } }
    ensures spent { result ≡ Err Stop.UnitsSpent → texts_made texts.items heap.old m.old.units ≡ Spends }
    ensures grows { Grows heap.old heap.new }
    ensures covered { IsCovered heap.new m.new.units }
{
    let mut made = Vec::new(alloc);
    for text in texts {
        made.push(heap.make(Cell::Text(text), m)?)?;
    }
    Ok(made)
}

/// Makes texts and an array of them, as long as they fit.
#[tactic(auto, unfolding(crate::specs::Cells::array_of_texts))]
fn try_array(
    alloc: Global,
    texts: Vec<HogText>,
    heap: &mut Heap,
    m: &mut Meter,
) -> Result<Value, Stop>
    requires { IsCovered heap.old m.old.units }
    ensures { Tries (array_of_texts texts.items heap.old m.old.units) result heap.old heap.new m.old m.new }
{
    let items = make_texts(alloc, texts, heap, m)?;
    heap.make(Cell::Array(Items::new(items)), m)
}

/// Makes texts and an array of them, or nothing.
fn make_array(
    alloc: Global,
    texts: Vec<HogText>,
    heap: &mut Heap,
    m: &mut Meter,
) -> Result<Value, Stop>
    requires { IsCovered heap.old m.old.units }
    ensures { Makes (array_of_texts texts.items heap.old m.old.units) result heap.old heap.new m.old m.new }
{
    let cells = heap.len();
    let meter = *m;
    let made = try_array(alloc, texts, heap, m);
    or_undone(made, cells, meter, heap, m)
}

/// Makes what a native has found out, or nothing.
pub(crate) fn make(
    alloc: Global,
    product: Product,
    heap: &mut Heap,
    m: &mut Meter,
) -> Result<Value, Stop>
    requires names { ProductNames (length heap.old) product }
    requires covered { IsCovered heap.old m.old.units }
    ensures { Makes (product_made product heap.old m.old.units) result heap.old heap.new m.old m.new }
{
    match product {
        Product::Value(v) => Ok(v),
        Product::Cell(cell) => heap.make(cell, m),
        Product::Texts(texts) => make_array(alloc, texts, heap, m),
    }
}

/// Makes an error of a message and a payload, as long as it fits.
#[tactic(auto, unfolding(crate::specs::Natives::error_called))]
fn try_error(alloc: Global, args: &[Value], heap: &mut Heap, m: &mut Meter) -> Result<Value, Stop>
    requires names { All (NamesBelow (length heap.old)) args.now }
    requires covered { IsCovered heap.old m.old.units }
    ensures { Tries (error_called args.now heap.old m.old.units) result heap.old heap.new m.old m.new }
{
    let name = make_text(alloc, "Error", heap, m)?;
    make_error(alloc, name, argument(args, 0), argument(args, 1), heap, m)
}

/// Error(message), Error(message, payload)
pub(crate) fn error(
    alloc: Global,
    args: &[Value],
    heap: &mut Heap,
    m: &mut Meter,
) -> Result<Value, Stop>
    requires names { All (NamesBelow (length heap.old)) args.now }
    requires covered { IsCovered heap.old m.old.units }
    ensures { Makes (error_called args.now heap.old m.old.units) result heap.old heap.new m.old m.new }
{
    let cells = heap.len();
    let meter = *m;
    let made = try_error(alloc, args, heap, m);
    or_undone(made, cells, meter, heap, m)
}

/// The name of a kind.
fn kind_name(kind: Kind) -> &'static str
    ensures { result.now ≡ kind_name kind }
{
    match kind {
        Kind::TypeError => "TypeError",
        Kind::IntegerOverflow => "IntegerOverflow",
        Kind::IndexError => "IndexError",
        Kind::ArgumentError => "ArgumentError",
        Kind::JsonError => "JsonError",
    }
}

/// The message of a kind.
fn kind_message(kind: Kind) -> &'static str
    ensures { result.now ≡ kind_message kind }
{
    match kind {
        Kind::TypeError => "wrong kind",
        Kind::IntegerOverflow => "integer overflow",
        Kind::IndexError => "index out of range",
        Kind::ArgumentError => "too many arguments",
        Kind::JsonError => "bad json",
    }
}

/// Makes what a program sees of a thrown kind, as long as it fits.
#[tactic(auto, unfolding(crate::specs::Cells::thrown))]
fn try_thrown(alloc: Global, kind: Kind, heap: &mut Heap, m: &mut Meter) -> Result<Value, Stop>
    requires { IsCovered heap.old m.old.units }
    ensures { Tries (thrown kind heap.old m.old.units) result heap.old heap.new m.old m.new }
{
    let name = make_text(alloc, kind_name(kind), heap, m)?;
    let message = make_text(alloc, kind_message(kind), heap, m)?;
    make_error(alloc, name, message, Value::Null, heap, m)
}

/// Makes what a program sees of a thrown kind: its name, its message, and a dictionary of both. Where it stops, heap
/// and meter are as before.
pub fn make_thrown(alloc: Global, kind: Kind, heap: &mut Heap, m: &mut Meter) -> Result<Value, Stop>
    requires { IsCovered heap.old m.old.units }
    ensures { Makes (thrown kind heap.old m.old.units) result heap.old heap.new m.old m.new }
{
    let cells = heap.len();
    let meter = *m;
    let made = try_thrown(alloc, kind, heap, m);
    or_undone(made, cells, meter, heap, m)
}

/// Makes what a program sees where no request is made of a URL, as long as it fits.
#[tactic(auto, unfolding(crate::specs::Cells::blocked))]
fn try_blocked(alloc: Global, heap: &mut Heap, m: &mut Meter) -> Result<Value, Stop>
    requires { IsCovered heap.old m.old.units }
    ensures { Tries (blocked heap.old m.old.units) result heap.old heap.new m.old m.new }
{
    let body = make_text(alloc, "blocked", heap, m)?;
    make_response(alloc, 0, body, heap, m)
}

/// Makes what a program sees where no request is made of a URL, or nothing.
pub(crate) fn make_blocked(alloc: Global, heap: &mut Heap, m: &mut Meter) -> Result<Value, Stop>
    requires { IsCovered heap.old m.old.units }
    ensures { Makes (blocked heap.old m.old.units) result heap.old heap.new m.old m.new }
{
    let cells = heap.len();
    let meter = *m;
    let made = try_blocked(alloc, heap, m);
    or_undone(made, cells, meter, heap, m)
}

/// Makes the cells of the value that a kept text is: that of globals, or of a reply's body. A text that is no JSON is null.
pub(crate) fn make_kept(
    alloc: Global,
    text: &HogText,
    heap: &mut Heap,
    m: &mut Meter,
) -> Result<Value, Stop>
    requires { IsCovered heap.old m.old.units }
    ensures { Makes (read_cells (kept_value text.now) heap.old m.old.units) result heap.old heap.new m.old m.new }
{
    match json_read(alloc, heap, text, m) {
        Ok(v) => Ok(v),
        Err(JsonStop::BadJson) => Ok(Value::Null),
        Err(JsonStop::UnitsSpent) => Err(Stop::UnitsSpent),
        Err(JsonStop::OutOfMemory) => Err(Stop::OutOfMemory),
    }
}

/// Makes what a program sees of a reply, as long as it fits.
#[tactic(auto, unfolding(crate::specs::Cells::response))]
fn try_reply(
    alloc: Global,
    status: u16,
    body: &HogText,
    heap: &mut Heap,
    m: &mut Meter,
) -> Result<Value, Stop>
    requires { IsCovered heap.old m.old.units }
    ensures { Tries (response status body.now heap.old m.old.units) result heap.old heap.new m.old m.new }
{
    let v = make_kept(alloc, body, heap, m)?;
    make_response(alloc, status, v, heap, m)
}

/// Makes what a program sees of a reply: the cells of its body, and the response. Where it stops, heap and meter are as
/// before.
pub fn make_reply(
    alloc: Global,
    status: u16,
    body: &HogText,
    heap: &mut Heap,
    m: &mut Meter,
) -> Result<Value, Stop>
    requires { IsCovered heap.old m.old.units }
    ensures { Makes (response status body.now heap.old m.old.units) result heap.old heap.new m.old m.new }
{
    let cells = heap.len();
    let meter = *m;
    let made = try_reply(alloc, status, body, heap, m);
    or_undone(made, cells, meter, heap, m)
}

/// Makes texts and then the cells of a kept text, as long as they fit.
fn try_first(
    alloc: Global,
    texts: Vec<HogText>,
    kept: &HogText,
    heap: &mut Heap,
    m: &mut Meter,
) -> Result<Value, Stop>
    requires { IsCovered heap.old m.old.units }
    ensures { Tries (outcome_and_then (texts_made texts.items heap.old m.old.units) (λ vs. read_cells (kept_value kept.now))) result heap.old heap.new m.old m.new }
{
    make_texts(alloc, texts, heap, m)?;
    make_kept(alloc, kept, heap, m)
}

/// Makes texts, and then the cells of the value that a kept text is: the first cells of a run, of its literals and its
/// globals. Where it stops, heap and meter are as before.
pub fn make_first(
    alloc: Global,
    texts: Vec<HogText>,
    kept: &HogText,
    heap: &mut Heap,
    m: &mut Meter,
) -> Result<Value, Stop>
    requires { IsCovered heap.old m.old.units }
    ensures { Makes (outcome_and_then (texts_made texts.items heap.old m.old.units) (λ vs. read_cells (kept_value kept.now))) result heap.old heap.new m.old m.new }
{
    let cells = heap.len();
    let meter = *m;
    let made = try_first(alloc, texts, kept, heap, m);
    or_undone(made, cells, meter, heap, m)
}
