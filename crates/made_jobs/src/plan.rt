//! The made plan.

ghost use Rattle.std.specs.Prelude.{◌≤◌, IfOk};
ghost use Rattle.std.specs.List.{All};
ghost use Rattle.event_reader.specs.Plans.{IsTaken, PlanOf};
ghost use Rattle.made_plans.specs.Made.{made_draft};

use crate::laws::made_is_a_plan;
use event_reader::{Plan, PlanStop, plan_of};
use made_plans::made_draft;
use std::alloc::{AllocError, Global};

/// The plan of `n`.
pub(crate) fn made_plan(alloc: Global, n: u32) -> Result<Plan, AllocError>
    requires { n ≤ 3000 }
    ensures plan { IfOk result (λ plan. PlanOf (made_draft n) plan) }
    ensures inputs { IfOk result (λ plan. All IsTaken plan.jobs) }
{
    made_is_a_plan();
    match plan_of(alloc, made_draft(alloc, n)?) {
        Ok(plan) => Ok(plan),
        Err(stop) => match stop {
            PlanStop::OutOfMemory => Err(AllocError),
            _ => unreachable!(),
        },
    }
}
