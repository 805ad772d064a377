//! Why functions of a plan aren't ready to run.

use hog_program::BuildStop;
use std::alloc::{AllocError, AllocFailed};

/// Why a function isn't ready. Functions are counted from 0.
#[derive(Clone, Copy, Debug, PartialEq, Eq)]
pub enum DestinationStop {
    /// Its source, or else its filter, isn't built. The cause is never want of memory.
    BadFunction { function: u32, stop: BuildStop },
    /// Its pattern is none.
    BadPattern { function: u32 },
    /// Its inputs have more than 32,768 bytes.
    TooLarge { function: u32 },
    OutOfMemory,
}

impl From<AllocError> for DestinationStop {
    ghost use Rattle.std.specs.Prelude.{◌≡◌};
    ghost use Rattle.event_destinations.specs.declared.stop.DestinationStop.TheVariants.{OutOfMemory};

    ghost from_gives = { λ _ e. e ≡ OutOfMemory };

    fn from(_want: AllocError) -> DestinationStop {
        DestinationStop::OutOfMemory
    }
}

impl<T: Drop> From<AllocFailed<T>> for DestinationStop {
    ghost use Rattle.std.specs.Prelude.{◌≡◌};
    ghost use Rattle.event_destinations.specs.declared.stop.DestinationStop.TheVariants.{OutOfMemory};

    ghost from_gives = { λ _ e. e ≡ OutOfMemory };

    fn from(_want: AllocFailed<T>) -> DestinationStop {
        DestinationStop::OutOfMemory
    }
}
