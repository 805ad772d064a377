//! The orders in which jobs are taken and swept, and when a job may be swept.

ghost use Rattle.std.specs.Prelude.{◌≡◌, ◌≤◌, ◌+◌, ◌↔◌, IsTrue};
ghost use Rattle.queue_history.specs.Due.{turn_cmp, silence_cmp};

use std::cmp::Ordering;

/// The turn of a job that waits: the least is taken first, by priority, then moment, then number.
#[derive(Clone, Copy, PartialEq, Eq, PartialOrd, Ord)]
pub struct Turn {
    pub priority: i16,
    /// The moment from which on it may be taken, in milliseconds.
    pub moment: u64,
    pub job: u32,
}

/// The silence of a job that runs: the least is swept first, by the moment of the last beat, then number.
#[derive(Clone, Copy, PartialEq, Eq, PartialOrd, Ord)]
pub struct Silence {
    /// In milliseconds.
    pub beat: u64,
    pub job: u32,
}

/// How two turns compare.
pub fn compare_turns(a: Turn, b: Turn) -> Ordering
    ensures { result ≡ turn_cmp a b }
{
    a.cmp(&b)
}

/// How two silences compare.
pub fn compare_silences(one: Silence, other: Silence) -> Ordering
    ensures { result ≡ silence_cmp one other }
{
    one.cmp(&other)
}

/// How many milliseconds after its last beat a running job may be swept.
const STALE_AFTER: u64 = 30_000;

/// Whether a running job with this last beat may be swept at the moment.
pub fn is_silent(beat: u64, now: u64) -> bool
    ensures { IsTrue result ↔ (beat + 30000 ≤ now) }
{
    beat <= now && now - beat >= STALE_AFTER
}
