//! Whether what was read belongs to a code.

ghost use Rattle.std.specs.Prelude.{◌≡◌, ◌&&◌, map, IfOk};
ghost use Rattle.std.specs.List.{list_all};
ghost use Rattle.hog_value.specs.Views.{cell_of};
ghost use Rattle.hog_ops.specs.Plain.{Ops};
ghost use Rattle.vm_course.specs.Belongs.{is_place, cell_belongs, is_text, begins_with, literals_belong, belongs};
ghost use Rattle.vm_frames.specs.Reading.{reading_of};
ghost use Rattle.vm_state.specs.Parts.{state_of, places_hold, literals_hold};

use crate::parts::Parts;
use hog_value::{Cell, HogText};
use std::alloc::{AllocError, Global};
use vm_frames::{Frame, Table, ThrowFrame};

/// Whether each frame stands at a place of the code. Takes no memory.
fn frames_belong(table: &Table, frames: &[Frame]) -> bool
    ensures { result ≡ list_all (λ f. is_place table.now.slots f.place) frames.now }
{
    frames.iter().all(|f| table.is_place(f.place))
}

/// Whether each throw frame goes on at a place of the code. Takes no memory.
fn throws_belong(table: &Table, throws: &[ThrowFrame]) -> bool
    ensures { result ≡ list_all (λ t. is_place table.now.slots t.catch) throws.now }
{
    throws.iter().all(|t| table.is_place(t.catch))
}

/// Whether a function's body begins in the code. Takes no memory.
fn cell_belongs(table: &Table, cell: &Cell) -> bool
    ensures { result ≡ cell_belongs table.now.slots (cell_of cell.now) }
{
    match cell {
        Cell::Fun(f) => table.params(f.place).is_some(),
        _ => true,
    }
}

/// The same of each cell. Takes no memory.
fn cells_belong(table: &Table, cells: &[Cell]) -> bool
    ensures { result ≡ list_all (λ c. cell_belongs table.now.slots (cell_of c)) cells.now }
{
    cells.iter().all(|c| cell_belongs(table, c))
}

/// Whether a cell is this text. Takes no memory.
fn is_text(text: &HogText, cell: &Cell) -> bool
    ensures { result ≡ is_text text.now (cell_of cell.now) }
{
    match cell {
        Cell::Text(t) => text.bytes() == t.bytes(),
        _ => false,
    }
}

/// Whether the first cells are these texts. Takes no memory.
fn begins_with(texts: &[HogText], cells: &[Cell]) -> bool
    ensures { result ≡ begins_with texts.now (map cell_of cells.now) }
{
    let mut rest = cells;
    for text in texts {
        let [cell, others @ ..] = rest else {
            return false;
        };
        if !is_text(text, cell) {
            return false;
        }
        rest = others;
    }
    true
}

/// Whether the first cells are the code's literals, where there are globals.
fn literals_belong(
    alloc: Global,
    table: &Table,
    globals: Option<u32>,
    cells: &[Cell],
) -> Result<bool, AllocError>
    ensures { IfOk result (λ b. b ≡ literals_belong table.now.literals globals (map cell_of cells.now)) }
{
    if globals.is_none() {
        return Ok(true);
    }
    let texts = table.literals(alloc)?;
    Ok(begins_with(texts.as_slice(), cells))
}

/// Whether the places that frames, throw frames and functions name are those of the code. Takes no memory.
fn places_belong(table: &Table, p: &Parts) -> bool
    ensures { result ≡ places_hold table.now.slots p.now }
{
    frames_belong(table, p.calls.frames.as_slice())
        && throws_belong(table, p.calls.throws.as_slice())
        && cells_belong(table, p.held.cells.as_slice())
}

/// The same, and whether the first cells are the code's literals.
fn parts_hold(alloc: Global, table: &Table, p: &Parts) -> Result<bool, AllocError>
    ensures { IfOk result (λ b. b ≡ (places_hold table.now.slots p.now && literals_hold table.now.literals p.now)) }
{
    if !places_belong(table, p) {
        return Ok(false);
    }
    literals_belong(alloc, table, p.globals, p.held.cells.as_slice())
}

/// Whether what was read belongs to a code.
pub fn parts_belong(alloc: Global, table: &Table, p: &Parts) -> Result<bool, AllocError>
    ensures { IfOk result (λ b. (code : Ops) → table.now ≡ reading_of code → b ≡ belongs code (state_of p.now)) }
{
    parts_hold(alloc, table, p)
}
