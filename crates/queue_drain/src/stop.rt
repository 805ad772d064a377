//! Why a queue is not worked to its end.

use cyclotron_core::stop::TakeStop;
use std::alloc::AllocError;

/// Why a queue is not worked to its end.
#[derive(Clone, Copy, Debug, PartialEq, Eq)]
pub enum DrainStop {
    OutOfMemory,
    /// The keeper of rows failed.
    Keeper,
}

impl From<AllocError> for DrainStop {
    ghost use Rattle.std.specs.Prelude.{◌≡◌};
    ghost use Rattle.queue_drain.specs.declared.stop.DrainStop.TheVariants.{OutOfMemory};

    ghost from_gives = { λ _ stop. stop ≡ OutOfMemory };

    fn from(_want: AllocError) -> DrainStop {
        DrainStop::OutOfMemory
    }
}

impl From<TakeStop> for DrainStop {
    ghost use Rattle.std.specs.Prelude.{◌≡◌};
    ghost use Rattle.queue_drain.specs.Stops.{of_take};

    ghost from_gives = { λ take stop. stop ≡ of_take take };

    fn from(stop: TakeStop) -> DrainStop {
        match stop {
            TakeStop::OutOfMemory => DrainStop::OutOfMemory,
            TakeStop::Keeper => DrainStop::Keeper,
        }
    }
}
