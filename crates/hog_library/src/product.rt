//! What a native has found out, before it changes the heap.

use hog_value::{Cell, HogText, Value};

/// What comes of a native: a value that is there, a new cell, or a new array of new texts.
#[derive(Drop)]
pub(crate) enum Product {
    Value(Value),
    Cell(Cell),
    Texts(Vec<HogText>),
}
