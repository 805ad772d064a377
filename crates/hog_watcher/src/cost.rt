//! Costs and health.

ghost use Rattle.std.specs.Prelude.{◌≡◌, ◌<◌, ◌^◌, count_by};
ghost use Rattle.hog_watcher.specs.Costs.{cost_of, end_cost, health_of, is_failure};

use cyclotron_jobs::input::Reply;
use cyclotron_jobs::row::Row;
use hog_value::trace::End;

/// What a failed reply costs.
const FAILED_REPLY: u128 = 1_000;

/// What an end without a result costs.
const NO_RESULT: u128 = 10_000;

/// The least status of a failed reply.
const FAILED: u16 = 500;

/// The least cost at which a destination is degraded.
const DEGRADED: u128 = 20_000;

/// The least cost at which a destination is disabled.
const DISABLED: u128 = 40_000;

/// How a destination does, by what its jobs have cost.
#[derive(Clone, Copy, Debug, PartialEq, Eq)]
pub enum Health {
    Healthy,
    /// Its jobs have cost 20,000 or more.
    Degraded,
    /// Its jobs have cost 40,000 or more.
    Disabled,
}

/// The health at that cost.
pub(crate) fn health_of(spent: u128) -> Health
    ensures { result ≡ health_of spent }
{
    if spent >= DISABLED {
        Health::Disabled
    } else if spent >= DEGRADED {
        Health::Degraded
    } else {
        Health::Healthy
    }
}

/// What a job has cost: its operations, 1,000 for each reply of status 500 or more, and 10,000 where its end is no result.
/// Takes no memory.
pub fn cost_of(row: &Row) -> u128
    ensures cost { result ≡ cost_of row.now }
    ensures few { result < 2 ^ 75 }
{
    let failures = failures_in(row.replies.items());
    row.ops as u128 + FAILED_REPLY * failures as u128 + end_cost(&row.shown.end)
}

/// How many replies have failed.
fn failures_in(replies: &[Reply]) -> u64
    ensures { result ≡ count_by is_failure replies.now }
{
    let mut count = 0;
    for reply in replies {
        if reply.status >= FAILED {
            count += 1;
        }
    }
    count
}

/// What an end costs.
fn end_cost(end: &Option<End>) -> u128
    ensures { result ≡ end_cost end.now }
{
    match end {
        Some(End::Done(_)) => 0,
        _ => NO_RESULT,
    }
}
