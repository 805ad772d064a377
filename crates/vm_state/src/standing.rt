//! Which of what was read is a state.

ghost use Rattle.std.specs.Prelude.{◌≡◌, ◌&&◌, ◌*◌, [], ℕ, length, map, nat_lt, nat_le, is_some, option_map, slice_get, unwrap_or, IfOk, true};
ghost use Rattle.std.specs.List.{list_all};
ghost use Rattle.hog_value.specs.Cells.{pairs_at};
ghost use Rattle.hog_value.specs.Views.{cell_of};
ghost use Rattle.hog_meaning.specs.Meaning.{is_request};
ghost use Rattle.vm_frames.specs.Views.{upvalue_of};
ghost use Rattle.state_forms.specs.Calls.{mode_of};
ghost use Rattle.vm_course.specs.States.{requests_in, names, cell_stands, is_function, frame_stands, later_frames, frames_stand, base_at, reaches, lands, throw_stands, throws_stand, upvalue_stands, taken_with, upvalues_stand, globals_stand, ends_with_request, waits_for, is_state};
ghost use Rattle.vm_state.specs.Tests.{format_stands, is_written};
ghost use Rattle.vm_state.specs.Parts.{state_of, written_of, counts_hold, calls_hold, values_hold, parts_hold, upvalues_hold};

use crate::parts::{Calls, Counts, Format, Held, Parts, Written};
use hog_value::{Cell, End, HogText, TraceItem, Value};
use indexmap::{IndexMap, IndexSet};
use std::alloc::{AllocError, Global};
use vm_frames::{Frame, ThrowFrame, Upvalue};

/// Whether a value names a cell that is there, where it names one. Takes no memory.
fn value_stands(cells: usize, v: &Value) -> bool
    ensures { result ≡ names cells v.now }
{
    match v {
        Value::Ref(n) => (*n as usize) < cells,
        _ => true,
    }
}

/// The same of each value of a list. Takes no memory.
fn each_value_stands(cells: usize, values: &[Value]) -> bool
    ensures { result ≡ list_all (names cells) values.now }
{
    values.iter().all(|v| value_stands(cells, v))
}

/// The same of each value of a dictionary. Takes no memory.
fn pairs_stand(cells: usize, map: &IndexMap<HogText, Value>) -> bool
    ensures { result ≡ list_all (λ p. names cells p.1) map.now.entries }
{
    map.iter().all(|(_, v)| value_stands(cells, v))
}

/// Whether each number is that of an upvalue. Takes no memory.
fn numbers_stand(upvalues: usize, numbers: &[u32]) -> bool
    ensures { result ≡ list_all (λ n. nat_lt n upvalues) numbers.now }
{
    numbers.iter().all(|n| (*n as usize) < upvalues)
}

/// Whether what a cell names is there. Takes no memory.
fn cell_stands(cells: usize, upvalues: usize, cell: &Cell) -> bool
    ensures { result ≡ cell_stands cells upvalues (cell_of cell.now) }
{
    match cell {
        Cell::Text(_) => true,
        Cell::Array(items) => each_value_stands(cells, items.items()),
        Cell::Dict(pairs) => pairs_stand(cells, pairs.map()),
        Cell::Fun(f) => numbers_stand(upvalues, f.captured.items()),
    }
}

/// The same of each cell. Takes no memory.
fn cells_stand(cells: &[Cell], upvalues: usize) -> bool
    ensures { result ≡ list_all (λ c. cell_stands (length cells.now) upvalues (cell_of c)) cells.now }
{
    let count = cells.len();
    cells.iter().all(|c| cell_stands(count, upvalues, c))
}

/// Whether a number is that of a function's cell. Takes no memory.
#[tactic(auto, using(crate::proofs::Seen::seen))]
fn is_function(cells: &[Cell], function: Option<u32>) -> bool
    ensures { result ≡ is_function (map cell_of cells.now) function }
{
    match function {
        Some(n) => matches!(cells.get(n as usize), Some(Cell::Fun(_))),
        None => false,
    }
}

/// Whether a later frame stands, where the one before it has its base at `low`. Takes no memory.
fn frame_stands(cells: &[Cell], height: usize, low: u32, f: &Frame) -> bool
    ensures { result ≡ frame_stands (map cell_of cells.now) height low f.now }
{
    is_function(cells, f.function) && low <= f.base && f.base as usize <= height
}

/// Whether the frames above the program's stand. Takes no memory.
fn later_frames(cells: &[Cell], height: usize, frames: &[Frame]) -> bool
    ensures { result ≡ later_frames (map cell_of cells.now) height 0 frames.now }
{
    let mut low = 0;
    for f in frames {
        if !frame_stands(cells, height, low, f) {
            return false;
        }
        low = f.base;
    }
    true
}

/// Whether the frames stand. Takes no memory.
fn frames_stand(cells: &[Cell], height: usize, frames: &[Frame]) -> bool
    ensures { result ≡ frames_stand (map cell_of cells.now) height frames.now }
{
    match frames {
        [f, rest @ ..] => {
            f.function.is_none()
                && f.base == 0
                && rest.len() <= 256
                && later_frames(cells, height, rest)
        }
        _ => false,
    }
}

/// Where the locals of the frame with a number begin. Takes no memory.
fn base_at(frames: &[Frame], n: u32) -> Option<u32>
    ensures { result ≡ base_at frames.now n }
{
    frames.get(n as usize).map(|f| f.base)
}

/// Whether a height is not below a base that is there. Takes no memory.
fn reaches(height: u32, base: Option<u32>) -> bool
    ensures { result ≡ reaches height base }
{
    match base {
        Some(base) => base <= height,
        None => false,
    }
}

/// Where the values of the frame below the one with a number end. Takes no memory.
fn end_below(frames: &[Frame], height: usize, n: u32) -> usize
    ensures { result ≡ unwrap_or (base_at frames.now n) height }
{
    match base_at(frames, n) {
        Some(base) => base as usize,
        None => height,
    }
}

/// Whether a throw frame lands within its frame. Takes no memory.
fn lands(frames: &[Frame], height: usize, t: &ThrowFrame) -> bool
    ensures { result ≡ lands frames.now height t.now }
{
    1 <= t.frames
        && reaches(t.height, base_at(frames, t.frames - 1))
        && t.height as usize <= end_below(frames, height, t.frames)
}

/// Whether a throw frame stands behind one of so many frames and such a height. Takes no memory.
fn throw_stands(frames: &[Frame], height: usize, fewest: u32, lowest: u32, t: &ThrowFrame) -> bool
    ensures { result ≡ throw_stands frames.now height fewest lowest t.now }
{
    lands(frames, height, t) && fewest <= t.frames && lowest <= t.height
}

/// Whether the throw frames stand. Takes no memory.
fn throws_stand(frames: &[Frame], height: usize, throws: &[ThrowFrame]) -> bool
    ensures { result ≡ throws_stand frames.now height 0 0 throws.now }
{
    let mut fewest = 0;
    let mut lowest = 0;
    for t in throws {
        if !throw_stands(frames, height, fewest, lowest, t) {
            return false;
        }
        fewest = t.frames;
        lowest = t.height;
    }
    true
}

/// Whether frames and throw frames stand. Takes no memory.
fn calls_stand(calls: &Calls, held: &Held) -> bool
    ensures { result ≡ calls_hold calls.now held.now }
{
    let height = calls.stack.len();
    let frames = calls.frames.as_slice();
    frames_stand(held.cells.as_slice(), height, frames)
        && throws_stand(frames, height, calls.throws.as_slice())
}

/// Whether an upvalue stands; the place of an open one is taken.
fn take_place(
    taken: &mut IndexSet<u32>,
    cells: usize,
    height: usize,
    u: &Upvalue,
) -> Result<bool, AllocError>
    ensures tested { IfOk result (λ b. b ≡ upvalue_stands cells height taken.old.keys (upvalue_of u.now)) }
    ensures taken { IfOk result (λ b. b ≡ true → taken.new.keys ≡ taken_with taken.old.keys (upvalue_of u.now)) }
{
    match u {
        Upvalue::Opened(place) => {
            if (*place as usize) < height {
                Ok(taken.insert(*place)?)
            } else {
                Ok(false)
            }
        }
        Upvalue::Closed(v) => Ok(value_stands(cells, v)),
    }
}

/// Whether the upvalues stand.
fn upvalues_stand(
    alloc: Global,
    cells: usize,
    height: usize,
    upvalues: &[Upvalue],
) -> Result<bool, AllocError>
    ensures { IfOk result (λ b. b ≡ upvalues_stand cells height [] (map upvalue_of upvalues.now)) }
{
    let mut taken = IndexSet::new(alloc);
    for u in upvalues {
        if !take_place(&mut taken, cells, height, u)? {
            return Ok(false);
        }
    }
    Ok(true)
}

/// Whether an item is a request. Takes no memory.
fn is_request(item: &TraceItem) -> bool
    ensures { result ≡ is_request item.now }
{
    match item {
        TraceItem::Printed(_) => false,
        TraceItem::Asked(_) => true,
    }
}

/// How many requests were shown. Takes no memory.
pub fn requests_in(trace: &[TraceItem]) -> u64
    ensures { result ≡ requests_in trace.now }
{
    trace.iter().filter(|item| is_request(item)).count() as u64
}

/// Whether the counts stand, and the number of cells and of requests. Takes no memory.
fn counts_stand(n: &Counts, held: &Held) -> bool
    ensures { result ≡ counts_hold n.now held.now }
{
    n.turns <= 100_000
        && n.units <= 4_194_304
        && held.cells.len() <= n.units as usize / 8
        && requests_in(held.trace.as_slice()) <= 100
}

/// Whether the globals are a dictionary, or there are none where memory was spent. Takes no memory.
#[tactic(auto, using(crate::proofs::Seen::seen))]
fn globals_stand(cells: &[Cell], waiting: bool, end: &Option<End>, globals: Option<u32>) -> bool
    ensures { result ≡ globals_stand (map cell_of cells.now) (mode_of waiting end.now) globals }
{
    match globals {
        Some(n) => matches!(cells.get(n as usize), Some(Cell::Dict(_))),
        None => matches!(end, Some(End::MemorySpent)),
    }
}

/// Whether what was shown last is a request. Takes no memory.
fn ends_with_request(trace: &[TraceItem]) -> bool
    ensures { result ≡ ends_with_request trace.now }
{
    match trace.last() {
        Some(item) => is_request(item),
        None => false,
    }
}

/// Whether one that waits has shown a request last. Takes no memory.
fn waits_for(waiting: bool, end: &Option<End>, trace: &[TraceItem]) -> bool
    ensures { result ≡ waits_for (mode_of waiting end.now) trace.now }
{
    end.is_some() || !waiting || ends_with_request(trace)
}

/// Whether the values on the stack and in the cells stand. Takes no memory.
fn values_stand(calls: &Calls, held: &Held) -> bool
    ensures { result ≡ values_hold calls.now held.now }
{
    let cells = held.cells.as_slice();
    each_value_stands(cells.len(), calls.stack.as_slice())
        && cells_stand(cells, held.upvalues.len())
}

/// Whether what was read is a state but for its upvalues. Takes no memory.
fn rest_stands(p: &Parts) -> bool
    ensures { result ≡ parts_hold p.now }
{
    counts_stand(&p.counts, &p.held)
        && calls_stand(&p.calls, &p.held)
        && values_stand(&p.calls, &p.held)
        && globals_stand(p.held.cells.as_slice(), p.waiting, &p.end, p.globals)
        && waits_for(p.waiting, &p.end, p.held.trace.as_slice())
}

/// The same, and of its upvalues.
fn parts_hold(alloc: Global, p: &Parts) -> Result<bool, AllocError>
    ensures { IfOk result (λ b. b ≡ (parts_hold p.now && upvalues_hold p.now)) }
{
    if !rest_stands(p) {
        return Ok(false);
    }
    upvalues_stand(
        alloc,
        p.held.cells.len(),
        p.calls.stack.len(),
        p.held.upvalues.as_slice(),
    )
}

/// Whether what was read is a state.
fn parts_stand(alloc: Global, p: &Parts) -> Result<bool, AllocError>
    ensures { IfOk result (λ b. b ≡ is_state (state_of p.now)) }
{
    parts_hold(alloc, p)
}

/// Whether a text in a format may say this end. Takes no memory.
fn format_stands(format: Format, waiting: bool, end: &Option<End>) -> bool
    ensures { result ≡ format_stands format (mode_of waiting end.now) }
{
    match format {
        Format::First => !matches!(end, Some(End::TooManyFetches)),
        Format::Second => true,
    }
}

/// Whether what was read is a state with as many requests as its text says.
#[tactic(auto, unfolding(crate::specs::Tests::is_written))]
pub fn written_stands(alloc: Global, w: &Written) -> Result<bool, AllocError>
    ensures { IfOk result (λ b. b ≡ is_written (written_of w.now)) }
{
    let p = &w.parts;
    if w.asked != requests_in(p.held.trace.as_slice())
        || !format_stands(w.format, p.waiting, &p.end)
    {
        return Ok(false);
    }
    parts_stand(alloc, p)
}
