//! Why a text is no draft of a plan.

use std::alloc::{AllocError, AllocFailed};

/// Why a text is no draft of a plan: the first refusal. Events are counted from 0.
#[derive(Clone, Copy, Debug, PartialEq, Eq)]
pub enum DraftStop {
    NotJson,
    /// The value, or a function of it, has not the shape of a plan.
    NotAPlan,
    /// There are more than 4,096 events.
    TooManyEvents,
    /// There are more than 64 functions.
    TooManyFunctions,
    /// The event is no object, or has no text `uuid`.
    Missing { event: u32 },
    /// The event's `uuid` has no form of one.
    BadUuid { event: u32 },
    /// The event has more than 32,768 bytes.
    TooLarge { event: u32 },
    OutOfMemory,
}

impl From<AllocError> for DraftStop {
    ghost use Rattle.std.specs.Prelude.{◌≡◌};
    ghost use Rattle.event_plans.specs.declared.stop.DraftStop.TheVariants.{OutOfMemory};

    ghost from_gives = { λ _ e. e ≡ OutOfMemory };

    fn from(_refused: AllocError) -> DraftStop {
        DraftStop::OutOfMemory
    }
}

impl<T: Drop> From<AllocFailed<T>> for DraftStop {
    ghost use Rattle.std.specs.Prelude.{◌≡◌};
    ghost use Rattle.event_plans.specs.declared.stop.DraftStop.TheVariants.{OutOfMemory};

    ghost from_gives = { λ _ e. e ≡ OutOfMemory };

    fn from(_refused: AllocFailed<T>) -> DraftStop {
        DraftStop::OutOfMemory
    }
}
