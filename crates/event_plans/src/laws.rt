//! Laws of drafts and their texts. The functions do nothing: their clauses are the laws.

ghost use Rattle.std.specs.Prelude.{◌≡◌, ℕ, List};
ghost use Rattle.event_plans.specs.Draft.{DraftOf, IsDraft, IsNoDraft};
ghost use Rattle.event_plans.specs.declared.stop.DraftStop.{DraftStop};

/// A text is one draft at most.
pub fn one_draft()
    ensures { (text : List ℕ) (a b : DraftOf) → IsDraft text a → IsDraft text b → a ≡ b }
{}

/// A text that is a draft has no refusal.
pub fn draft_or_none()
    ensures { (text : List ℕ) (draft : DraftOf) (stop : DraftStop) → IsDraft text draft → IsNoDraft text stop → ⊥ }
{}

/// A text has one refusal at most.
pub fn one_refusal()
    ensures { (text : List ℕ) (a b : DraftStop) → IsNoDraft text a → IsNoDraft text b → a ≡ b }
{}
