//! Cells: what a heap holds.

use crate::items::{Items, Numbers};
use crate::pairs::Pairs;
use crate::text::HogText;

/// A function: where its body begins, and the numbers of the upvalues that it captured.
#[derive(Drop)]
pub struct FunCell {
    pub place: u32,
    pub captured: Numbers,
}

/// A cell of a heap.
#[derive(Drop)]
pub enum Cell {
    Text(HogText),
    Array(Items),
    Dict(Pairs),
    Fun(FunCell),
}

impl Cell {
    ghost use Rattle.std.specs.Prelude.{◌≡◌, min};
    ghost use Rattle.hog_value.specs.Cells.{HasDistinctKeys, cost_of_cell};
    ghost use Rattle.hog_value.specs.Views.{cell_of};

    /// The units that making the cell costs, or `u64::MAX` where they are more. Takes no memory.
    pub(crate) fn cost(&self) -> u64
        ensures units { result ≡ min (cost_of_cell (cell_of self.now)) u64.MAX }
        ensures distinct { HasDistinctKeys (cell_of self.now) }
    {
        match self {
            Cell::Text(text) => (text.bytes().len() as u64).saturating_add(8),
            Cell::Array(items) => (items.items().len() as u64)
                .saturating_mul(8)
                .saturating_add(8),
            Cell::Dict(pairs) => pairs.cost().saturating_add(8),
            Cell::Fun(_) => 64,
        }
    }
}
