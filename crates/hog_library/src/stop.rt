//! Why a native stops before it changes anything.

use hog_value::{Kind, Stop};
use std::alloc::AllocError;

/// Why a native gives no value.
#[derive(Clone, Copy)]
pub(crate) enum NativeStop {
    /// The program sees this kind thrown.
    Thrown(Kind),
    /// The charge doesn't fit.
    UnitsSpent,
    OutOfMemory,
}

impl From<AllocError> for NativeStop {
    ghost use Rattle.std.specs.Prelude.{◌≡◌};
    ghost use Rattle.hog_library.specs.declared.stop.NativeStop.TheVariants.{OutOfMemory};

    ghost from_gives = { λ _ e. e ≡ OutOfMemory };

    fn from(_want: AllocError) -> NativeStop {
        NativeStop::OutOfMemory
    }
}

impl From<Stop> for NativeStop {
    ghost use Rattle.std.specs.Prelude.{◌≡◌};
    ghost use Rattle.hog_library.specs.Products.{native_stop};

    ghost from_gives = { λ stop e. e ≡ native_stop stop };

    fn from(stop: Stop) -> NativeStop {
        match stop {
            Stop::UnitsSpent => NativeStop::UnitsSpent,
            Stop::OutOfMemory => NativeStop::OutOfMemory,
        }
    }
}
