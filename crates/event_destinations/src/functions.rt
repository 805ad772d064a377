//! All functions of a plan.

ghost use Rattle.std.specs.Prelude.{◌≡◌, ◌≢◌, ◌≤◌, IfErr, IfOk, length};
ghost use Rattle.std.specs.List.{All};
ghost use Rattle.event_plans.specs.Draft.{most_functions};
ghost use Rattle.event_plans.specs.Drafts.{functions_of};
ghost use Rattle.event_destinations.specs.Destinations.{IsFirstStop, IsReady};
ghost use Rattle.event_destinations.specs.Seen.{of_destinations};

use crate::destination::Destination;
use crate::stop::DestinationStop;
use event_plans::Function;
use std::alloc::Global;

/// The destinations of a plan's functions, or the refusal of the first that isn't ready.
pub fn destinations(
    alloc: Global,
    functions: Vec<Function>,
) -> Result<Vec<Destination>, DestinationStop>
    requires few { length functions.items ≤ most_functions }
    ensures functions { IfOk result (λ ds. of_destinations ds.items ≡ functions_of functions.items) }
    ensures ready { IfOk result (λ _. All IsReady (functions_of functions.items)) }
    ensures stop { IfErr result (λ s. s ≢ DestinationStop.OutOfMemory
        → IsFirstStop 0 (functions_of functions.items) s) }
{
    let mut destinations = Vec::new(alloc);
    let mut n = 0;
    for function in functions {
        destinations.push(Destination::build(alloc, n, function)?)?;
        n += 1;
    }
    Ok(destinations)
}
