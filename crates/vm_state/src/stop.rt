//! Why bytes are no machine of a code.

use std::alloc::AllocError;

/// Why bytes are not the saved state of a machine of a code. The first that holds is answered.
#[derive(Clone, Copy, Debug, PartialEq, Eq)]
pub enum StateStop {
    /// The bytes are no JSON.
    NotJson,
    /// The JSON value is not that of a state, in either format.
    NotAState,
    /// It is the state of a machine of another code.
    NotThisCode,
    /// The bytes aren't the one text of that state in their format.
    NotCanonical,
    OutOfMemory,
}

impl From<AllocError> for StateStop {
    ghost use Rattle.std.specs.Prelude.{◌≡◌};
    ghost use Rattle.vm_state.specs.declared.stop.StateStop.TheVariants.{OutOfMemory};

    ghost from_gives = { λ _ e. e ≡ OutOfMemory };

    fn from(_want: AllocError) -> StateStop {
        StateStop::OutOfMemory
    }
}
