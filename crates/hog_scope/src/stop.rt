//! Why the names of a tree can't be resolved.

use std::alloc::{AllocError, AllocFailed};

/// A fault of a name; `at` is the place of its first byte in the text.
#[derive(Clone, Copy, Debug, PartialEq, Eq)]
pub enum ScopeStop {
    /// Its scope declares the name already.
    AlreadyDeclared { at: usize },
    /// It is assigned, and no declaration of it is seen.
    AssignsUnknown { at: usize },
    /// It is called, no declaration of it is seen, and it names no native.
    UnknownFunction { at: usize },
    /// The native that it names doesn't take so many arguments.
    WrongCount { at: usize },
    OutOfMemory,
}

impl From<AllocError> for ScopeStop {
    ghost use Rattle.std.specs.Prelude.{◌≡◌};
    ghost use Rattle.hog_scope.specs.declared.stop.ScopeStop.TheVariants.{OutOfMemory};

    ghost from_gives = { λ _ e. e ≡ OutOfMemory };

    fn from(_e: AllocError) -> ScopeStop {
        ScopeStop::OutOfMemory
    }
}

impl<T: Drop> From<AllocFailed<T>> for ScopeStop {
    ghost use Rattle.std.specs.Prelude.{◌≡◌};
    ghost use Rattle.hog_scope.specs.declared.stop.ScopeStop.TheVariants.{OutOfMemory};

    ghost from_gives = { λ _ e. e ≡ OutOfMemory };

    fn from(_e: AllocFailed<T>) -> ScopeStop {
        ScopeStop::OutOfMemory
    }
}
