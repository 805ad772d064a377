//! Values, and why an operation on them stops.

use std::alloc::{AllocError, AllocFailed};

/// A value: null, a truth value, a whole number, or the number of a cell.
///
/// `==` asks whether two values are the same; `Heap::same` is the language's own test.
#[derive(Clone, Copy, Debug, PartialEq, Eq)]
pub enum Value {
    Null,
    Bool(bool),
    Int(i64),
    Ref(u32),
}

/// What a program can throw besides its own values.
#[derive(Clone, Copy, Debug, PartialEq, Eq)]
pub enum Kind {
    TypeError,
    IntegerOverflow,
    IndexError,
    ArgumentError,
    JsonError,
}

/// Why an operation that charges units stopped. It has then changed nothing.
#[derive(Clone, Copy, Debug, PartialEq, Eq)]
pub enum Stop {
    /// The charge doesn't fit.
    UnitsSpent,
    OutOfMemory,
}

/// Why setting an item stopped. It has then changed nothing.
#[derive(Clone, Copy, Debug, PartialEq, Eq)]
pub enum SetStop {
    /// The program sees this kind thrown.
    Thrown(Kind),
    /// The charge doesn't fit.
    UnitsSpent,
    OutOfMemory,
}

impl From<AllocError> for Stop {
    ghost use Rattle.std.specs.Prelude.{◌≡◌};
    ghost use Rattle.hog_value.specs.declared.value.Stop.TheVariants.{OutOfMemory};

    ghost from_gives = { λ _ e. e ≡ OutOfMemory };

    fn from(_want: AllocError) -> Stop {
        Stop::OutOfMemory
    }
}

impl<T: Drop> From<AllocFailed<T>> for Stop {
    ghost use Rattle.std.specs.Prelude.{◌≡◌};
    ghost use Rattle.hog_value.specs.declared.value.Stop.TheVariants.{OutOfMemory};

    ghost from_gives = { λ _ e. e ≡ OutOfMemory };

    fn from(_want: AllocFailed<T>) -> Stop {
        Stop::OutOfMemory
    }
}

impl From<AllocError> for SetStop {
    ghost use Rattle.std.specs.Prelude.{◌≡◌};
    ghost use Rattle.hog_value.specs.declared.value.SetStop.TheVariants.{OutOfMemory};

    ghost from_gives = { λ _ e. e ≡ OutOfMemory };

    fn from(_want: AllocError) -> SetStop {
        SetStop::OutOfMemory
    }
}

impl<T: Drop> From<AllocFailed<T>> for SetStop {
    ghost use Rattle.std.specs.Prelude.{◌≡◌};
    ghost use Rattle.hog_value.specs.declared.value.SetStop.TheVariants.{OutOfMemory};

    ghost from_gives = { λ _ e. e ≡ OutOfMemory };

    fn from(_want: AllocFailed<T>) -> SetStop {
        SetStop::OutOfMemory
    }
}
