//! What a function takes from the frame in which it is made.

use std::marker::Model;

/// A variable that a function captures: a local of the frame in which the function is made, or
/// an upvalue of it.
#[derive(Clone, Copy, Debug, PartialEq, Eq)]
pub struct Capture {
    pub local: bool,
    pub index: u32,
}

/// Captures in order. Contracts see the list.
#[derive(Drop)]
pub struct Captures {
    list: Vec<Capture>,
}

impl Model for Captures {
    ghost use Rattle.std.specs.Prelude.{List};
    ghost use Rattle.hog_ops.specs.declared.capture.Capture.{Capture};

    ghost Value = { List Capture };

    ghost view = { λ c. c.list.items };
}

impl Captures {
    ghost use Rattle.std.specs.Prelude.{◌≡◌};

    /// Takes no memory.
    pub fn new(list: Vec<Capture>) -> Captures
        ensures { result ≡ list.items }
    {
        Captures { list }
    }

    /// Takes no memory.
    pub fn items(&self) -> &[Capture]
        ensures { result.now ≡ self.now }
    {
        self.list.as_slice()
    }
}
