//! What a word names.

use hog_value::Native;

/// What a word of a program names.
#[derive(Clone, Copy, Debug, PartialEq, Eq)]
pub enum Item {
    /// The declaration with this number. Declarations are numbered from 0, in the order of the source.
    Declared(usize),
    Native(Native),
    /// The global of that name.
    Global,
}
