//! The course of a job.

/// What it is for a job to be on course. It has no call: a queue over any course keeps its rows on course.
pub trait Course: Drop {
    ghost use Rattle.std.specs.Prelude.{ℕ, List, [], ◌∷◌, ◌++◌, ◌≢◌, length};
    ghost use Rattle.hog_value.specs.declared.trace.Shown.{Shown};
    ghost use Rattle.cyclotron_jobs.specs.declared.input.JobInput.{JobInput};
    ghost use Rattle.cyclotron_jobs.specs.declared.input.Reply.{Reply};
    ghost use Rattle.cyclotron_jobs.specs.declared.row.After.{After};
    ghost use Rattle.cyclotron_jobs.specs.declared.row.After.TheVariants.{Hog, Finished};
    ghost use Rattle.cyclotron_jobs.specs.Course.{shows_nothing};

    /// Which inputs it takes.
    ghost takes: { JobInput → Type 0 };

    /// A job with this input and these replies may have, after so many operations, this saved text,
    /// have shown this, and have this come next.
    ghost on_course: { JobInput → List Reply → ℕ → List ℕ → Shown → After → Type 0 };

    /// Which replies may come at a place among the replies, counted from 0.
    ghost reply_ok: { JobInput → ℕ → Reply → Type 0 };

    /// An input that it takes is on course before the first operation.
    ghost begins: { (input : JobInput) → takes input → on_course input [] 0 [] shows_nothing Hog };

    /// A job that has not ended stays on course when an allowed reply is added.
    ghost goes_on: { (input : JobInput) (replies : List Reply) (ops : ℕ) (saved : List ℕ) (shown : Shown)
        (after : After) (reply : Reply)
        → on_course input replies ops saved shown after → after ≢ Finished → reply_ok input (length replies) reply
        → on_course input (replies ++ reply ∷ []) ops saved shown Hog };
}
