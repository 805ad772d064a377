//! Why a play wasn't written to its end.

use line_writer::OutputStop;
use std::alloc::AllocError;

/// Why a play wasn't written to its end.
#[derive(Clone, Copy, Debug, PartialEq, Eq)]
pub enum PlayStop {
    /// A write failed.
    Write,
    OutOfMemory,
}

impl From<OutputStop> for PlayStop {
    ghost use Rattle.std.specs.Prelude.{◌≡◌};
    ghost use Rattle.script_steps.specs.Stops.{of_output};

    ghost from_gives = { λ stop e. e ≡ of_output stop };

    fn from(stop: OutputStop) -> PlayStop {
        match stop {
            OutputStop::Failed => PlayStop::Write,
            OutputStop::OutOfMemory => PlayStop::OutOfMemory,
        }
    }
}

impl From<AllocError> for PlayStop {
    ghost use Rattle.std.specs.Prelude.{◌≡◌};
    ghost use Rattle.script_steps.specs.declared.stop.PlayStop.TheVariants.{OutOfMemory};

    ghost from_gives = { λ _ e. e ≡ OutOfMemory };

    fn from(_refused: AllocError) -> PlayStop {
        PlayStop::OutOfMemory
    }
}
