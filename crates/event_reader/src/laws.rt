//! Laws of plans. The functions do nothing: their clauses are the laws.

ghost use Rattle.std.specs.Prelude.{◌≡◌, ℕ, List};
ghost use Rattle.event_plans.specs.Draft.{DraftOf};
ghost use Rattle.event_reader.specs.Plans.{AreAlike, IsNoPlan, IsPlan, NoPlanOf, PlanOf};
ghost use Rattle.event_reader.specs.declared.plan.Plan.{Plan};
ghost use Rattle.event_reader.specs.declared.stop.PlanStop.{PlanStop};

/// A draft makes one plan at most, and a text is one at most.
pub fn one_plan()
    ensures draft { (draft : DraftOf) (a b : Plan) → PlanOf draft a → PlanOf draft b → a ≡ b }
    ensures text { (text : List ℕ) (a b : Plan) → IsPlan text a → IsPlan text b → a ≡ b }
{
    hog_program::laws::one_whole();
    event_plans::laws::one_draft();
}

/// A draft that makes a plan has no refusal, and neither has a text that is one.
pub fn plan_or_none()
    ensures draft { (draft : DraftOf) (plan : Plan) (stop : PlanStop) → PlanOf draft plan → NoPlanOf draft stop → ⊥ }
    ensures text { (text : List ℕ) (plan : Plan) (stop : PlanStop) → IsPlan text plan → IsNoPlan text stop → ⊥ }
{
    hog_program::laws::one_whole();
    event_destinations::laws::all_or_first_stop();
    event_plans::laws::one_draft();
    event_plans::laws::draft_or_none();
}

/// A draft has one refusal at most, and so has a text, but for the reason why a function isn't built.
pub fn one_refusal()
    ensures draft { (draft : DraftOf) (a b : PlanStop) → NoPlanOf draft a → NoPlanOf draft b → AreAlike a b }
    ensures text { (text : List ℕ) (a b : PlanStop) → IsNoPlan text a → IsNoPlan text b → AreAlike a b }
{
    hog_program::laws::one_whole();
    event_destinations::laws::all_or_first_stop();
    event_destinations::laws::ready_or_stopped();
    event_plans::laws::one_draft();
    event_plans::laws::draft_or_none();
    event_plans::laws::one_refusal();
}
