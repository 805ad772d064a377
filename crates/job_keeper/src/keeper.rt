//! The trait of keepers, and one that keeps nothing.

use cyclotron_jobs::row::Row;

/// Why a row was not kept.
#[derive(Clone, Copy, Debug, PartialEq, Eq)]
pub enum KeepStop {
    Failed,
    OutOfMemory,
}

/// Keeps the row of each job.
pub trait Keeper: Drop {
    ghost use Rattle.std.specs.Prelude.{◌≡◌, ◌≤◌, ℕ, Bool, true, Option, IsOk, OnOk, OnErr};
    ghost use Rattle.hog_outside.specs.Faults.{Rose};
    ghost use Rattle.cyclotron_jobs.specs.declared.row.Row.{Row};
    ghost use Rattle.job_keeper.specs.Held.{PutsRow, SameRows};

    /// How many calls failed. It never falls, and stands still at its greatest.
    ghost faults: { Self → ℕ };

    /// Whether keepers of this type tell their rows.
    ghost tells: { Bool };

    /// The row that it holds of a job, where it tells them.
    ghost held: { Self → ℕ → Option Row };

    /// Whether keepers of this type answer Ok to each call.
    ghost sure: { Bool };

    /// Keeps the row in place of the one that it holds of that job, if any.
    fn put(&mut self, row: &Row) -> Result<(), KeepStop>
        ensures ok { OnOk result (PutsRow tells (held self.old) (held self.new) row.now) }
        ensures err { OnErr result (SameRows tells (held self.old) (held self.new)) }
        ensures failed { result ≡ Err KeepStop.Failed → Rose (faults self.old) (faults self.new) }
        ensures sure { sure ≡ true → IsOk result }
        ensures count { faults self.old ≤ faults self.new };
}

/// Keeps nothing, and never fails. A call takes no memory.
#[derive(Drop)]
pub struct NoKeeper;

impl Keeper for NoKeeper {
    ghost use Rattle.std.specs.Prelude.{Bool, true, false, None};

    ghost faults = { λ _. 0 };

    ghost tells = { false };

    ghost held = { λ _ _. None };

    ghost sure = { true };

    fn put(&mut self, _row: &Row) -> Result<(), KeepStop> {
        Ok(())
    }
}
