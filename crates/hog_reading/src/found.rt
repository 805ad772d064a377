//! What reading gives, and why it stops.

ghost use Rattle.std.specs.Prelude.{◌≡◌};
ghost use Rattle.std.specs.Prelude.{◌≡◌};

use std::alloc::{AllocError, AllocFailed};

/// A tree that was read, its height, and the index of the token after it.
#[derive(Drop)]
pub struct Found<T> {
    pub tree: T,
    pub height: u32,
    pub at: usize,
}

/// Why nothing was read. The number is the index of a token, or the number of tokens at the end of the text.
#[derive(Clone, Copy, Debug, PartialEq, Eq)]
pub enum Stop {
    /// The first token that can't go on.
    Syntax(usize),
    /// The token at which the height that is left is passed.
    TooNested(usize),
    OutOfMemory,
}

impl From<AllocError> for Stop {
    ghost from_gives = { λ _ e. e ≡ OutOfMemory };

    ghost use Rattle.hog_reading.specs.declared.found.Stop.TheVariants.{OutOfMemory};

    fn from(_error: AllocError) -> Self {
        Stop::OutOfMemory
    }
}

impl<T: Drop> From<AllocFailed<T>> for Stop {
    ghost from_gives = { λ _ e. e ≡ OutOfMemory };

    ghost use Rattle.hog_reading.specs.declared.found.Stop.TheVariants.{OutOfMemory};

    fn from(_error: AllocFailed<T>) -> Self {
        Stop::OutOfMemory
    }
}
