//! Refusals.

use std::alloc::AllocError;

/// Why a code is refused: the first operation that breaks a rule, by its place, or the place where an empty body begins.
#[derive(Clone, Copy, Debug, PartialEq, Eq)]
pub enum VerifyStop {
    /// It takes off or looks at an operand that isn't there, or that stands below an open try.
    Underflow { at: usize },
    /// It reads, sets or captures a local that isn't there.
    NoLocal { at: usize },
    /// It reads, sets or captures an upvalue that isn't there.
    NoUpvalue { at: usize },
    /// It takes away a try where none is open in its body.
    NoTry { at: usize },
    /// It leads to the end of its body, or the body is empty.
    FallsOff { at: usize },
    /// It leads to a place that has another shape, or to none that may have this one.
    ShapesDiffer { at: usize },
    OutOfMemory,
}

impl From<AllocError> for VerifyStop {
    ghost use Rattle.std.specs.Prelude.{◌≡◌};
    ghost use Rattle.bytecode_check.specs.declared.stops.VerifyStop.TheVariants.{OutOfMemory};

    ghost from_gives = { λ _ e. e ≡ OutOfMemory };

    fn from(_want: AllocError) -> VerifyStop {
        VerifyStop::OutOfMemory
    }
}
