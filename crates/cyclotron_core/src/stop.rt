//! Why calls of a queue are refused.

use std::alloc::AllocError;

/// Why a job is not enqueued.
#[derive(Clone, Copy, Debug, PartialEq, Eq)]
pub enum EnqueueStop {
    /// There are `MOST_JOBS` jobs.
    Full,
    OutOfMemory,
    /// The keeper of rows failed.
    Keeper,
}

impl From<AllocError> for EnqueueStop {
    ghost use Rattle.std.specs.Prelude.{◌≡◌};
    ghost use Rattle.cyclotron_core.specs.declared.stop.EnqueueStop.TheVariants.{OutOfMemory};

    ghost from_gives = { λ _ stop. stop ≡ OutOfMemory };

    fn from(_want: AllocError) -> EnqueueStop {
        EnqueueStop::OutOfMemory
    }
}

impl From<TakeStop> for EnqueueStop {
    ghost use Rattle.std.specs.Prelude.{◌≡◌};
    ghost use Rattle.cyclotron_core.specs.Puts.{enqueue_stop_of};

    ghost from_gives = { λ stop given. given ≡ enqueue_stop_of stop };

    fn from(stop: TakeStop) -> EnqueueStop {
        match stop {
            TakeStop::OutOfMemory => EnqueueStop::OutOfMemory,
            TakeStop::Keeper => EnqueueStop::Keeper,
        }
    }
}

/// Why no job is taken or swept, though one is due or stale.
#[derive(Clone, Copy, Debug, PartialEq, Eq)]
pub enum TakeStop {
    OutOfMemory,
    /// The keeper of rows failed.
    Keeper,
}

impl From<AllocError> for TakeStop {
    ghost use Rattle.std.specs.Prelude.{◌≡◌};
    ghost use Rattle.cyclotron_core.specs.declared.stop.TakeStop.TheVariants.{OutOfMemory};

    ghost from_gives = { λ _ stop. stop ≡ OutOfMemory };

    fn from(_want: AllocError) -> TakeStop {
        TakeStop::OutOfMemory
    }
}
