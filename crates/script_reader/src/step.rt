//! The steps of scripts, and why a text is no script.

use cyclotron_jobs::input::{JobInput, Reply};
use cyclotron_jobs::row::QueueName;
use hog_program::BuildStop;
use std::alloc::{AllocError, AllocFailed};

/// One step of a script. Workers are 0 to 15, moments and draws 0 to 2^63 - 1, slices 1 to 1,000,000.
/// Moments are in milliseconds, and slices in operations.
#[derive(Drop)]
pub enum Step {
    Enqueue {
        input: JobInput,
        priority: i16,
        at: u64,
    },
    Take {
        worker: u8,
        queue: QueueName,
        now: u64,
    },
    Beat {
        worker: u8,
        now: u64,
    },
    Work {
        worker: u8,
        slice: u32,
    },
    Answer {
        worker: u8,
        reply: Reply,
    },
    Flush {
        worker: u8,
    },
    Sweep {
        now: u64,
    },
    /// The worker loses what it holds.
    Lose {
        worker: u8,
    },
    /// The worker acts from now on under the lock id of this job and draw.
    Forge {
        worker: u8,
        job: u32,
        draw: u64,
    },
    /// The worker puts its job back until the moment.
    Back {
        worker: u8,
        at: u64,
    },
}

/// Why a text is no script. Steps are counted from 0.
#[derive(Clone, Copy, Debug, PartialEq, Eq)]
pub enum ScriptStop {
    NotJson,
    /// The JSON is no array.
    NotAScript,
    /// The array has more than 65,536 elements.
    TooMany,
    /// The first element that is no step, where no source before it is refused.
    BadStep { step: u32 },
    /// The first element whose source isn't built, never for want of memory, where each element before it is a step.
    BadSource { step: u32, stop: BuildStop },
    OutOfMemory,
}

impl From<AllocError> for ScriptStop {
    ghost use Rattle.std.specs.Prelude.{◌≡◌};
    ghost use Rattle.script_reader.specs.declared.step.ScriptStop.TheVariants.{OutOfMemory};

    ghost from_gives = { λ _ e. e ≡ OutOfMemory };

    fn from(_refused: AllocError) -> ScriptStop {
        ScriptStop::OutOfMemory
    }
}

impl<T: Drop> From<AllocFailed<T>> for ScriptStop {
    ghost use Rattle.std.specs.Prelude.{◌≡◌};
    ghost use Rattle.script_reader.specs.declared.step.ScriptStop.TheVariants.{OutOfMemory};

    ghost from_gives = { λ _ e. e ≡ OutOfMemory };

    fn from(_refused: AllocFailed<T>) -> ScriptStop {
        ScriptStop::OutOfMemory
    }
}
