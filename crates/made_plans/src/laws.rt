//! Laws of the made plan. The functions do nothing: their clauses are the laws.

ghost use Rattle.std.specs.Prelude.{◌≡◌, ◌≤◌, ◌+◌, ℕ, Ok, length};
ghost use Rattle.event_plans.specs.Draft.{checked};
ghost use Rattle.made_plans.specs.Made.{made_draft};

/// The plan of a number of at most 3,000 has not too many events and functions, and each of its events is one.
pub fn made_is_checked()
    ensures events { (n : ℕ) → length (made_draft n).events ≡ n + 1000 }
    ensures checked { (n : ℕ) → n ≤ 3000 → checked (made_draft n) ≡ Ok (made_draft n) }
{}
