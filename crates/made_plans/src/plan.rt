//! The made plan.

ghost use Rattle.std.specs.Prelude.{◌≡◌, ◌≤◌, IfOk};
ghost use Rattle.event_plans.specs.Drafts.{draft_of};
ghost use Rattle.made_plans.specs.Made.{made_draft};

use crate::events::made_events;
use crate::functions::made_functions;
use event_plans::Draft;
use std::alloc::{AllocError, Global};

/// The plan of `n`: `n` + 1000 events, and the functions `echo`, `high` and `sum`.
pub fn made_draft(alloc: Global, n: u32) -> Result<Draft, AllocError>
    requires { n ≤ 3000 }
    ensures draft { IfOk result (λ d. draft_of d ≡ made_draft n) }
{
    Ok(Draft {
        events: made_events(alloc, n)?,
        functions: made_functions(alloc)?,
    })
}
