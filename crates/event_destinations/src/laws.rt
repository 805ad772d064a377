//! Laws of destinations. The functions do nothing: their clauses are the laws.

ghost use Rattle.std.specs.Prelude.{ℕ, List};
ghost use Rattle.std.specs.List.{All};
ghost use Rattle.event_plans.specs.Function.{FunctionOf};
ghost use Rattle.event_destinations.specs.Destinations.{IsDestinationStop, IsFirstStop, IsReady};
ghost use Rattle.event_destinations.specs.declared.stop.DestinationStop.{DestinationStop};

/// A function that is ready has no refusal.
pub fn ready_or_stopped()
    ensures { (n : ℕ) (f : FunctionOf) (stop : DestinationStop) → IsReady f → IsDestinationStop n f stop → ⊥ }
{
    hog_program::laws::built_or_unbuilt();
}

/// Functions that are all ready have no refusal.
pub fn all_or_first_stop()
    ensures { (fs : List FunctionOf) (n : ℕ) (stop : DestinationStop) → All IsReady fs → IsFirstStop n fs stop → ⊥ }
{
    ready_or_stopped();
}
