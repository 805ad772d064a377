//! Counts of lines.

ghost use Rattle.std.specs.Prelude.{◌≡◌, ◌≤◌, ◌<◌, ◌+◌, ◌^◌};
ghost use Rattle.job_counts.specs.Counts.{counted_in, prints_in, requests_in, is_done, is_throw, shown_of};
ghost use Rattle.job_counts.specs.Sums.{counted_more, one_if};

use cyclotron_core::queue::QueueState;
use cyclotron_jobs::course::Course;
use hog_value::trace::{End, Shown, TraceItem};
use job_keeper::keeper::Keeper;

/// How many lines of each kind jobs show.
#[derive(Clone, Copy, Debug, PartialEq, Eq)]
pub struct JobCounts {
    pub prints: u128,
    pub requests: u128,
    /// How many jobs ended with a result.
    pub done: u32,
    /// How many ended by a throw.
    pub threw: u32,
}

/// Counts what all jobs of a queue have committed. Takes no memory.
pub fn counts_of<C: Course, K: Keeper>(queue: &QueueState<C, K>) -> JobCounts
    ensures { result ≡ counted_in (shown_of queue.now.rows) }
{
    let _ = queue.history();
    let mut counts = JobCounts {
        prints: 0,
        requests: 0,
        done: 0,
        threw: 0,
    };
    let mut job = 0;
    'jobs: while let Some(row) = queue.row(job) {
        counts = more(counts, &row.shown);
        job += 1;
    }
    counts
}

/// Counts what one job more shows.
fn more(counts: JobCounts, shown: &Shown) -> JobCounts
    requires few_prints { counts.prints < 2 ^ 127 }
    requires few_requests { counts.requests < 2 ^ 127 }
    requires few_done { counts.done < 2 ^ 31 }
    requires few_threw { counts.threw < 2 ^ 31 }
    ensures counted { result ≡ counted_more counts shown.now }
    ensures prints { result.prints ≤ counts.prints + 2 ^ 64 }
    ensures requests { result.requests ≤ counts.requests + 2 ^ 64 }
{
    let trace = shown.trace.items();
    JobCounts {
        prints: counts.prints + prints_in(trace) as u128,
        requests: counts.requests + requests_in(trace) as u128,
        done: counts.done + is_done(&shown.end) as u32,
        threw: counts.threw + is_throw(&shown.end) as u32,
    }
}

fn prints_in(trace: &[TraceItem]) -> u64
    ensures { result ≡ prints_in trace.now }
{
    let mut count = 0;
    for item in trace {
        if matches!(item, TraceItem::Printed(_)) {
            count += 1;
        }
    }
    count
}

fn requests_in(trace: &[TraceItem]) -> u64
    ensures { result ≡ requests_in trace.now }
{
    let mut count = 0;
    for item in trace {
        if matches!(item, TraceItem::Asked(_)) {
            count += 1;
        }
    }
    count
}

fn is_done(end: &Option<End>) -> bool
    ensures { result ≡ is_done end.now }
{
    matches!(end, Some(End::Done(_)))
}

fn is_throw(end: &Option<End>) -> bool
    ensures { result ≡ is_throw end.now }
{
    matches!(end, Some(End::Threw(_)))
}
