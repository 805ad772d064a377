//! Why a text is no code.

ghost use Rattle.std.specs.Prelude.{◌≡◌};
ghost use Rattle.bytecode_front.specs.Reading.{stop_at};

use std::alloc::{AllocError, AllocFailed};

/// Why a text is no code. Places are numbers of elements of the array, from 0.
#[derive(Clone, Copy, Debug, PartialEq, Eq)]
pub enum CodeStop {
    /// The text is no JSON.
    NotJson,
    /// It is no array that begins with `"_H"` and a whole number.
    NoHeader,
    /// That number isn't 1.
    Version { found: i64 },
    /// The number at this place is no operation's.
    UnknownOp { at: usize, number: i64 },
    /// The number at this place is that of an operation that this product leaves out.
    OutOfProfile { at: usize, number: i64 },
    /// The element at this place is no number, or an operand of its operation is wrong.
    BadOperand { at: usize },
    OutOfMemory,
}

/// Why no operation stands at a place.
#[derive(Clone, Copy, Debug, PartialEq, Eq)]
pub enum Why {
    /// This number is no operation's.
    Unknown(i64),
    /// This is the number of an operation that is left out.
    Outside(i64),
    Bad,
}

impl From<AllocError> for CodeStop {
    ghost use Rattle.std.specs.Prelude.{◌≡◌};
    ghost use Rattle.bytecode_front.specs.declared.stop.CodeStop.TheVariants.{OutOfMemory};

    ghost from_gives = { λ _ e. e ≡ OutOfMemory };

    fn from(_refused: AllocError) -> CodeStop {
        CodeStop::OutOfMemory
    }
}

impl<T: Drop> From<AllocFailed<T>> for CodeStop {
    ghost use Rattle.std.specs.Prelude.{◌≡◌};
    ghost use Rattle.bytecode_front.specs.declared.stop.CodeStop.TheVariants.{OutOfMemory};

    ghost from_gives = { λ _ e. e ≡ OutOfMemory };

    fn from(_refused: AllocFailed<T>) -> CodeStop {
        CodeStop::OutOfMemory
    }
}

/// The refusal of what stands at a place.
pub fn stop_at(at: usize, why: Why) -> CodeStop
    ensures { result ≡ stop_at at why }
{
    match why {
        Why::Unknown(number) => CodeStop::UnknownOp { at, number },
        Why::Outside(number) => CodeStop::OutOfProfile { at, number },
        Why::Bad => CodeStop::BadOperand { at },
    }
}
