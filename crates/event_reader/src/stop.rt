//! Why there is no plan.

use event_destinations::DestinationStop;
use event_plans::DraftStop;
use hog_program::BuildStop;
use std::alloc::{AllocError, AllocFailed};

/// What a plan has too many of.
#[derive(Clone, Copy, Debug, PartialEq, Eq)]
pub enum Counted {
    /// More than 4,096 events.
    Events,
    /// More than 64 functions.
    Functions,
    /// More than 16,384 jobs.
    Jobs,
}

/// What of a plan has too many bytes.
#[derive(Clone, Copy, Debug, PartialEq, Eq)]
pub enum Measured {
    /// The event at this place has more than 32,768.
    Event(u32),
    /// The inputs of the function at this place have more than 32,768.
    Inputs(u32),
    /// The inputs of all jobs have together more than 268,435,456.
    Jobs,
}

/// Why there is no plan: the first refusal. Events and functions are counted from 0.
#[derive(Clone, Copy, Debug, PartialEq, Eq)]
pub enum PlanStop {
    NotJson,
    /// The value, or a function of it, has not the shape of a plan.
    NotAPlan,
    /// The event is no object, or has no text `uuid`.
    Missing { event: u32 },
    /// The event's `uuid` has no form of one.
    BadUuid { event: u32 },
    /// The source of the function isn't built, or else its filter isn't. The stop is never OutOfMemory.
    BadFunction { function: u32, stop: BuildStop },
    /// The pattern of the function is none.
    BadPattern { function: u32 },
    TooMany { what: Counted },
    TooLarge { what: Measured },
    OutOfMemory,
}

impl From<AllocError> for PlanStop {
    ghost use Rattle.std.specs.Prelude.{◌≡◌};
    ghost use Rattle.event_reader.specs.declared.stop.PlanStop.TheVariants.{OutOfMemory};

    ghost from_gives = { λ _ e. e ≡ OutOfMemory };

    fn from(_refused: AllocError) -> PlanStop {
        PlanStop::OutOfMemory
    }
}

impl<T: Drop> From<AllocFailed<T>> for PlanStop {
    ghost use Rattle.std.specs.Prelude.{◌≡◌};
    ghost use Rattle.event_reader.specs.declared.stop.PlanStop.TheVariants.{OutOfMemory};

    ghost from_gives = { λ _ e. e ≡ OutOfMemory };

    fn from(_refused: AllocFailed<T>) -> PlanStop {
        PlanStop::OutOfMemory
    }
}

impl From<DraftStop> for PlanStop {
    ghost use Rattle.std.specs.Prelude.{◌≡◌};
    ghost use Rattle.event_reader.specs.Stops.{of_draft};

    ghost from_gives = { λ stop e. e ≡ of_draft stop };

    fn from(stop: DraftStop) -> PlanStop {
        match stop {
            DraftStop::NotJson => PlanStop::NotJson,
            DraftStop::NotAPlan => PlanStop::NotAPlan,
            DraftStop::TooManyEvents => PlanStop::TooMany {
                what: Counted::Events,
            },
            DraftStop::TooManyFunctions => PlanStop::TooMany {
                what: Counted::Functions,
            },
            DraftStop::Missing { event } => PlanStop::Missing { event },
            DraftStop::BadUuid { event } => PlanStop::BadUuid { event },
            DraftStop::TooLarge { event } => PlanStop::TooLarge {
                what: Measured::Event(event),
            },
            DraftStop::OutOfMemory => PlanStop::OutOfMemory,
        }
    }
}

impl From<DestinationStop> for PlanStop {
    ghost use Rattle.std.specs.Prelude.{◌≡◌};
    ghost use Rattle.event_reader.specs.Stops.{of_destination};

    ghost from_gives = { λ stop e. e ≡ of_destination stop };

    fn from(stop: DestinationStop) -> PlanStop {
        match stop {
            DestinationStop::BadFunction { function, stop } => PlanStop::BadFunction {
                function,
                stop,
            },
            DestinationStop::BadPattern { function } => PlanStop::BadPattern { function },
            DestinationStop::TooLarge { function } => PlanStop::TooLarge {
                what: Measured::Inputs(function),
            },
            DestinationStop::OutOfMemory => PlanStop::OutOfMemory,
        }
    }
}
