//! A pool of threads over a queue of Hog jobs.

ghost use Rattle.std.specs.Prelude.{ℕ, ◌≡◌, ◌≤◌, IfOk, count_by};
ghost use Rattle.cyclotron_core.specs.Changes.{is_unfinished};
ghost use Rattle.hog_jobs.specs.Rows.{KeepsTheMeaning};
ghost use Rattle.job_pool.specs.Pool.{HasGoneOn, stand_of};
ghost use Rattle.job_pool.specs.Totals.{totals_in};

use crate::hand::HogHand;
use clocks::Clock;
use cyclotron_core::QueueState;
use cyclotron_jobs::row::QueueName;
use hog_jobs::HogCourse;
use hog_jobs::laws::keeps_the_meaning;
use job_keeper::Keeper;
use job_pool::{Gate, Post, Totals, finish_jobs, run_jobs};
use std::alloc::{AllocError, Global};
use std::sync::Wait;
use std::thread::Threads;

/// The most workers, and the most fetchers, of a pool.
pub const MOST_THREADS: u32 = 16;

/// A queue at its end, with its whole history.
#[derive(Drop)]
pub struct Closed<K: Keeper> {
    pub jobs: QueueState<HogCourse, K>,
}

/// A queue of which each job is completed or failed, and how many entries of each kind its history has.
#[derive(Drop)]
pub struct PoolEnd<K: Keeper> {
    pub closed: Closed<K>,
    pub totals: Totals,
}

/// Works on the jobs of a queue until each is completed or failed, by so many workers and fetchers, each a thread. A worker
/// runs jobs first and a fetcher answers requests first, and each does the other where there is none of its own. The gate
/// knows the workers by their numbers from 0 on, and then the fetchers. What lost threads leave is finished by this one.
/// `slice` is in operations; the first `misses` tries of each fetch fail.
pub fn run_pool<R: Threads + Wait + Sync, K: Keeper + Send, T: Clock + Sync, G: Gate + Sync>(
    rt: &R,
    alloc: Global,
    queue: QueueState<HogCourse, K>,
    workers: u32,
    fetchers: u32,
    slice: u32,
    misses: u8,
    clock: &T,
    gate: &G,
) -> Result<PoolEnd<K>, AllocError>
    requires few_workers { workers ≤ MOST_THREADS }
    requires few_fetchers { fetchers ≤ MOST_THREADS }
    requires some { 1 ≤ slice }
    ensures finished { IfOk result (λ end. count_by is_unfinished end.closed.jobs.rows ≡ 0) }
    ensures gone_on { IfOk result (λ end. HasGoneOn T.shows K.faults (stand_of K.faults queue) end.closed.jobs) }
    ensures meaning { IfOk result (λ end. KeepsTheMeaning end.closed.jobs.rows end.closed.jobs.history) }
    ensures totals { IfOk result (λ end. end.totals ≡ totals_in end.closed.jobs.history) }
{
    keeps_the_meaning();
    let posts = posts_of(alloc, workers, fetchers, slice, misses)?;
    let last = HogHand::new(alloc, slice, misses)?;
    let end = run_jobs(rt, alloc, queue, posts, last, clock, gate)?;
    Ok(PoolEnd {
        closed: Closed { jobs: end.queue },
        totals: end.totals,
    })
}

/// Works on the jobs of a queue until each is completed or failed, on one thread.
pub fn finish<R: Wait, K: Keeper, T: Clock>(
    rt: &R,
    alloc: Global,
    queue: QueueState<HogCourse, K>,
    slice: u32,
    misses: u8,
    clock: &T,
) -> Result<Closed<K>, AllocError>
    requires some { 1 ≤ slice }
    ensures finished { IfOk result (λ closed. count_by is_unfinished closed.jobs.rows ≡ 0) }
    ensures gone_on { IfOk result (λ closed. HasGoneOn T.shows K.faults (stand_of K.faults queue) closed.jobs) }
    ensures meaning { IfOk result (λ closed. KeepsTheMeaning closed.jobs.rows closed.jobs.history) }
{
    keeps_the_meaning();
    let last = HogHand::new(alloc, slice, misses)?;
    let jobs = finish_jobs(rt, alloc, queue, last, clock)?;
    let _ = jobs.history();
    Ok(Closed { jobs })
}

/// The posts of so many workers and then of so many fetchers.
fn posts_of(
    alloc: Global,
    workers: u32,
    fetchers: u32,
    slice: u32,
    misses: u8,
) -> Result<Vec<Post<HogHand>>, AllocError>
    requires few_workers { workers ≤ MOST_THREADS }
    requires few_fetchers { fetchers ≤ MOST_THREADS }
    requires some { 1 ≤ slice }
{
    let mut posts = Vec::new(alloc);
    for number in 0..workers + fetchers {
        let first = if number < workers {
            QueueName::Hog
        } else {
            QueueName::Fetch
        };
        let hand = HogHand::new(alloc, slice, misses)?;
        posts.push(Post {
            number,
            first,
            hand,
        })?;
    }
    Ok(posts)
}
