//! A pool of threads.

ghost use Rattle.std.specs.Prelude.{ℕ, ◌≡◌, IfOk, count_by};
ghost use Rattle.queue_history.specs.Rows.{IsKept};
ghost use Rattle.cyclotron_core.specs.Changes.{is_unfinished};
ghost use Rattle.job_pool.specs.Pool.{HasGoneOn, stand_of};
ghost use Rattle.job_pool.specs.Totals.{totals_in};

use crate::gate::{Gate, Open};
use crate::hand::{Hand, Post};
use crate::serve::serve;
use crate::shared::{Opening, Shared};
use crate::totals::{Totals, totals_of};
use clocks::Clock;
use cyclotron_core::queue::QueueState;
use cyclotron_jobs::course::Course;
use cyclotron_jobs::row::QueueName;
use job_keeper::keeper::Keeper;
use std::alloc::{AllocError, Global};
use std::marker::Brand;
use std::sync::{Mutex, Wait};
use std::thread;
use std::thread::Threads;

/// A queue of which no job is unfinished, and how many entries of each kind its history has.
#[derive(Drop)]
pub struct PoolEnd<C: Course, K: Keeper> {
    pub queue: QueueState<C, K>,
    pub totals: Totals,
}

/// Works on the jobs of a queue until each is completed or failed: a thread for each post first, and then, where some are
/// still unfinished since threads were lost, this thread alone, by `last`.
pub fn run_jobs<
    R: Threads + Wait + Sync,
    C: Course + Send,
    K: Keeper + Send,
    T: Clock + Sync,
    G: Gate + Sync,
    W: Hand<C> + Send,
>(
    rt: &R,
    alloc: Global,
    queue: QueueState<C, K>,
    posts: Vec<Post<W>>,
    last: W,
    clock: &T,
    gate: &G,
) -> Result<PoolEnd<C, K>, AllocError>
    ensures finished { IfOk result (λ end. count_by is_unfinished end.queue.rows ≡ 0) }
    ensures gone_on { IfOk result (λ end. HasGoneOn T.shows K.faults (stand_of K.faults queue) end.queue) }
    ensures kept { IfOk result (λ end. IsKept C.takes C.on_course C.reply_ok end.queue.rows end.queue.history) }
    ensures totals { IfOk result (λ end. end.totals ≡ totals_in end.queue.history) }
{
    let queue = run_from::<R, C, K, T, G, W, Brand>(rt, alloc, queue, posts, last, clock, gate)?;
    let totals = totals_of(queue.history());
    Ok(PoolEnd { queue, totals })
}

/// Works on the jobs of a queue until each is completed or failed, on one thread.
pub fn finish_jobs<R: Wait, C: Course, K: Keeper, T: Clock, W: Hand<C>>(
    rt: &R,
    alloc: Global,
    queue: QueueState<C, K>,
    last: W,
    clock: &T,
) -> Result<QueueState<C, K>, AllocError>
    ensures finished { IfOk result (λ q. count_by is_unfinished q.rows ≡ 0) }
    ensures gone_on { IfOk result (HasGoneOn T.shows K.faults (stand_of K.faults queue)) }
{
    finish_from::<R, C, K, T, W, Brand>(rt, alloc, queue, last, clock)
}

/// As `run_jobs`, for a queue that has gone on from an opening.
fn run_from<
    R: Threads + Wait + Sync,
    C: Course + Send,
    K: Keeper + Send,
    T: Clock + Sync,
    G: Gate + Sync,
    W: Hand<C> + Send,
    J: Opening + Send + Sync,
>(
    rt: &R,
    alloc: Global,
    queue: QueueState<C, K>,
    mut posts: Vec<Post<W>>,
    last: W,
    clock: &T,
    gate: &G,
) -> Result<QueueState<C, K>, AllocError>
    requires began { HasGoneOn J.moments K.faults J.start queue }
    requires shown { (n : ℕ) → T.shows n → J.moments n }
    ensures finished { IfOk result (λ q. count_by is_unfinished q.rows ≡ 0) }
    ensures gone_on { IfOk result (HasGoneOn J.moments K.faults J.start) }
{
    let shared = Mutex::new(Shared::<C, K, J>::new(queue));
    let threads = posts.len().max(1);
    thread::for_each_mut(
        rt,
        posts.as_mut_slice(),
        threads,
        &|_place, post| serve(rt, alloc, &shared, clock, gate, post),
    );
    let queue = shared.into_inner().close()?;
    finish_from::<R, C, K, T, W, J>(rt, alloc, queue, last, clock)
}

/// As `finish_jobs`, for a queue that has gone on from an opening.
fn finish_from<R: Wait, C: Course, K: Keeper, T: Clock, W: Hand<C>, J: Opening>(
    rt: &R,
    alloc: Global,
    mut queue: QueueState<C, K>,
    last: W,
    clock: &T,
) -> Result<QueueState<C, K>, AllocError>
    requires began { HasGoneOn J.moments K.faults J.start queue }
    requires shown { (n : ℕ) → T.shows n → J.moments n }
    ensures finished { IfOk result (λ q. count_by is_unfinished q.rows ≡ 0) }
    ensures gone_on { IfOk result (HasGoneOn J.moments K.faults J.start) }
{
    let mut post = Post {
        number: 0,
        first: QueueName::Hog,
        hand: last,
    };
    for _ in rt.forever() {
        if queue.unfinished() == 0 {
            return Ok(queue);
        }
        queue = served::<R, C, K, T, W, J>(rt, alloc, queue, clock, &mut post)?;
    }
    unreachable!()
}

/// The queue, after this thread has served it alone.
fn served<R: Wait, C: Course, K: Keeper, T: Clock, W: Hand<C>, J: Opening>(
    rt: &R,
    alloc: Global,
    queue: QueueState<C, K>,
    clock: &T,
    post: &mut Post<W>,
) -> Result<QueueState<C, K>, AllocError>
    requires began { HasGoneOn J.moments K.faults J.start queue }
    requires shown { (n : ℕ) → T.shows n → J.moments n }
    ensures { IfOk result (HasGoneOn J.moments K.faults J.start) }
{
    let shared = Mutex::new(Shared::<C, K, J>::new(queue));
    serve(rt, alloc, &shared, clock, &Open, post);
    shared.into_inner().close()
}
