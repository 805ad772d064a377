//! Reading a state.

ghost use Rattle.std.specs.Prelude.{◌≡◌, IfOk, map};
ghost use Rattle.std.specs.List.{AllByRecursion};
ghost use Rattle.serde_json.specs.View.{view};
ghost use Rattle.state_forms.specs.Shapes.{Gives};
ghost use Rattle.hog_value.specs.Views.{cell_of};
ghost use Rattle.state_forms.specs.Values.{CellFits};
ghost use Rattle.vm_course.specs.States.{requests_in};
ghost use Rattle.vm_state.specs.Layout.{counts_in, calls_in, held_in, lists_in, rest_in, rest_by, format_named, format_by, written_by, written_in};
ghost use Rattle.vm_state.specs.Parts.{counts_of, calls_of, held_of, state_of, written_of};

use crate::parts::{Calls, Counts, Format, Held, Parts, Written};
use crate::standing::requests_in;
use serde_json::Value;
use state_forms::ReadStop;
use state_forms::calls::read_mode;
use state_forms::forms::{array_of, number_u32, number_u64, read_list, read_maybe};
use state_forms::upvalues::read_upvalues;
use state_forms::values::read_cells;
use std::alloc::Global;

#[tactic(auto, unfolding(crate::specs::Layout::counts_in))]
fn read_counts(ops: &Value, turns: &Value, units: &Value, used: &Value) -> Result<Counts, ReadStop>
    ensures { Gives counts_of result (counts_in (view ops.now) (view turns.now) (view units.now) (view used.now)) }
{
    let ops = number_u64(ops)?;
    let turns = number_u32(turns)?;
    let units = number_u32(units)?;
    let used = number_u64(used)?;
    Ok(Counts {
        ops,
        turns,
        units,
        used,
    })
}

#[tactic(auto, unfolding(crate::specs::Layout::calls_in))]
fn read_calls(
    alloc: Global,
    stack: &Value,
    frames: &Value,
    throws: &Value,
) -> Result<Calls, ReadStop>
    ensures { Gives calls_of result (calls_in (view stack.now) (view frames.now) (view throws.now)) }
{
    let stack = read_list(alloc, stack)?;
    let frames = read_list(alloc, frames)?;
    let throws = read_list(alloc, throws)?;
    Ok(Calls {
        stack,
        frames,
        throws,
    })
}

#[tactic(auto, unfolding(crate::specs::Layout::held_in))]
fn read_held(alloc: Global, upvalues: &Value, heap: &Value, trace: &Value) -> Result<Held, ReadStop>
    ensures gives { Gives held_of result (held_in (view upvalues.now) (view heap.now) (view trace.now)) }
    ensures ranged { IfOk result (λ h. AllByRecursion CellFits (map cell_of h.cells.items)) }
{
    let upvalues = read_upvalues(alloc, upvalues)?;
    let cells = read_cells(alloc, heap)?;
    let trace = read_list(alloc, trace)?;
    Ok(Held {
        upvalues,
        cells,
        trace,
    })
}

/// The elements behind the end.
#[tactic(auto, unfolding(crate::specs::Layout::lists_in))]
fn read_lists(alloc: Global, items: &[Value]) -> Result<(Calls, Held), ReadStop>
    ensures gives { Gives (λ l. (calls_of l.0, held_of l.1)) result (lists_in (map view items.now)) }
    ensures ranged { IfOk result (λ l. AllByRecursion CellFits (map cell_of l.1.cells.items)) }
{
    match items {
        [stack, frames, throws, upvalues, heap, trace] => {
            let calls = read_calls(alloc, stack, frames, throws)?;
            let held = read_held(alloc, upvalues, heap, trace)?;
            Ok((calls, held))
        }
        _ => Err(ReadStop::Refused),
    }
}

/// The elements behind the counts, and behind the number of requests.
#[tactic(auto, unfolding(crate::specs::Layout::rest_in))]
fn read_rest(alloc: Global, counts: Counts, items: &[Value]) -> Result<Parts, ReadStop>
    ensures gives { Gives state_of result (rest_in (counts_of counts) (map view items.now)) }
    ensures ranged { IfOk result (λ p. AllByRecursion CellFits (map cell_of p.held.cells.items)) }
{
    match items {
        [globals, end, lists @ ..] => {
            let globals = read_maybe::<u32>(alloc, globals)?;
            let (calls, held) = read_lists(alloc, lists)?;
            let (waiting, end) = read_mode(alloc, end)?;
            Ok(Parts {
                counts,
                globals,
                waiting,
                end,
                calls,
                held,
            })
        }
        _ => Err(ReadStop::Refused),
    }
}

/// In the first format the number of requests is not written; it is counted.
fn read_first(alloc: Global, counts: Counts, items: &[Value]) -> Result<Written, ReadStop>
    ensures gives { Gives written_of result (rest_by Format.First (counts_of counts) (map view items.now)) }
    ensures ranged { IfOk result (λ w. AllByRecursion CellFits (map cell_of w.parts.held.cells.items)) }
{
    let parts = read_rest(alloc, counts, items)?;
    let asked = requests_in(parts.held.trace.as_slice());
    Ok(Written {
        format: Format::First,
        asked,
        parts,
    })
}

/// In the second the number of requests comes first.
fn read_second(alloc: Global, counts: Counts, items: &[Value]) -> Result<Written, ReadStop>
    ensures gives { Gives written_of result (rest_by Format.Second (counts_of counts) (map view items.now)) }
    ensures ranged { IfOk result (λ w. AllByRecursion CellFits (map cell_of w.parts.held.cells.items)) }
{
    match items {
        [asked, rest @ ..] => {
            let asked = number_u32(asked)? as u64;
            let parts = read_rest(alloc, counts, rest)?;
            Ok(Written {
                format: Format::Second,
                asked,
                parts,
            })
        }
        _ => Err(ReadStop::Refused),
    }
}

/// The elements behind the name and the number of the format.
fn read_behind(alloc: Global, format: Format, items: &[Value]) -> Result<Written, ReadStop>
    ensures gives { Gives written_of result (written_by format (map view items.now)) }
    ensures ranged { IfOk result (λ w. AllByRecursion CellFits (map cell_of w.parts.held.cells.items)) }
{
    match items {
        [ops, turns, units, used, rest @ ..] => {
            let counts = read_counts(ops, turns, units, used)?;
            match format {
                Format::First => read_first(alloc, counts, rest),
                Format::Second => read_second(alloc, counts, rest),
            }
        }
        _ => Err(ReadStop::Refused),
    }
}

/// The format by its name and its number. Takes no memory.
fn format_named(name: &str, number: u64) -> Result<Format, ReadStop>
    ensures { Gives (λ f. f) result (format_named name.now number) }
{
    if name != "hog-state" {
        return Err(ReadStop::Refused);
    }
    if number == 1 {
        Ok(Format::First)
    } else if number == 2 {
        Ok(Format::Second)
    } else {
        Err(ReadStop::Refused)
    }
}

/// The format of a state's elements. Takes no memory.
fn read_format(name: &Value, number: &Value) -> Result<Format, ReadStop>
    ensures { Gives (λ f. f) result (format_by (view name.now) (view number.now)) }
{
    match name.as_str() {
        Some(word) => {
            let n = number_u64(number)?;
            format_named(word, n)
        }
        None => Err(ReadStop::Refused),
    }
}

/// The state that a JSON value has the form of.
pub fn read_written(alloc: Global, v: &Value) -> Result<Written, ReadStop>
    ensures gives { Gives written_of result (written_in (view v.now)) }
    ensures ranged { IfOk result (λ w. AllByRecursion CellFits (map cell_of w.parts.held.cells.items)) }
{
    match array_of(v)? {
        [name, number, rest @ ..] => {
            let format = read_format(name, number)?;
            read_behind(alloc, format, rest)
        }
        _ => Err(ReadStop::Refused),
    }
}
