//! What each thread of a pool does.

ghost use Rattle.std.specs.Prelude.{ℕ};

use crate::gate::{Gate, Point, Word};
use crate::hand::{AnswerStop, Hand, Post};
use crate::shared::{Opening, Shared};
use clocks::Clock;
use cyclotron_core::stop::TakeStop;
use cyclotron_jobs::course::Course;
use cyclotron_jobs::lease::{Advance, Answered, Lease};
use cyclotron_jobs::refused::{LeaseStop, Refused};
use cyclotron_jobs::row::QueueName;
use job_keeper::keeper::Keeper;
use lock_ids::lock::LockId;
use std::alloc::{AllocError, Global};
use std::sync::{Mutex, Wait};

/// A lease that is held for so many milliseconds has a heartbeat before it is flushed.
const BEAT_AFTER: u64 = 10_000;

/// A job whose request got no reply waits for so many milliseconds.
const BACK_FOR: u64 = 1_000;

/// How long a thread pauses that finds nothing to do, in milliseconds: each time twice as long.
const FIRST_PAUSE: u64 = 1;

const LONGEST_PAUSE: u64 = 32;

/// How a step of a thread ended.
enum Went {
    /// A job went on, or jobs were swept.
    On,
    /// Nothing was due, and nothing was stale.
    Idle,
    /// The gate said Lose.
    Lost,
}

/// What a thread has for its lease.
#[derive(Drop)]
enum Product<C: Course> {
    Ran(Advance<C>),
    Replied(Answered<C>),
    /// The request got no reply.
    Missed,
}

/// Serves the queue until no job is open, a thread has found no memory, or the gate says Lose.
pub fn serve<R: Wait, C: Course, K: Keeper, T: Clock, G: Gate, W: Hand<C>, J: Opening>(
    rt: &R,
    alloc: Global,
    shared: &Mutex<Shared<C, K, J>>,
    clock: &T,
    gate: &G,
    post: &mut Post<W>,
)
    requires { (n : ℕ) → T.shows n → J.moments n }
{
    let mut pause = FIRST_PAUSE;
    for _ in rt.forever() {
        match step(rt, alloc, shared, clock, gate, post) {
            Ok(Went::On) => pause = FIRST_PAUSE,
            Ok(Went::Lost) => return,
            Ok(Went::Idle) => {
                if shared.lock(rt).is_over() {
                    return;
                }
                clock.pause(pause);
                pause = pause.saturating_mul(2).min(LONGEST_PAUSE);
            }
            Err(_) => {
                shared.lock(rt).give_up();
                return;
            }
        }
    }
    unreachable!()
}

/// Takes a job that is due, does the work on it outside the lock, and flushes that. Where none is due the stale jobs are
/// swept.
fn step<R: Wait, C: Course, K: Keeper, T: Clock, G: Gate, W: Hand<C>, J: Opening>(
    rt: &R,
    alloc: Global,
    shared: &Mutex<Shared<C, K, J>>,
    clock: &T,
    gate: &G,
    post: &mut Post<W>,
) -> Result<Went, AllocError>
    requires { (n : ℕ) → T.shows n → J.moments n }
{
    let now = clock.now();
    let Some(lease) = take_due(rt, shared, post.first, now)? else {
        let swept = shared.lock(rt).sweep(now);
        return after_sweep(swept);
    };
    if gate.at(post.number, Point::Taken) == Word::Lose {
        return Ok(Went::Lost);
    }
    let product = product_of(alloc, &lease, &mut post.hand)?;
    if gate.at(post.number, Point::Worked) == Word::Lose {
        return Ok(Went::Lost);
    }
    commit(rt, shared, clock, now, lease.lock, product)?;
    if gate.at(post.number, Point::Flushed) == Word::Lose {
        return Ok(Went::Lost);
    }
    Ok(Went::On)
}

/// Takes the job that is due first on this queue, or else on the other one.
fn take_due<R: Wait, C: Course, K: Keeper, J: Opening>(
    rt: &R,
    shared: &Mutex<Shared<C, K, J>>,
    first: QueueName,
    now: u64,
) -> Result<Option<Lease<C>>, AllocError>
    requires { J.moments now }
{
    let taken = shared.lock(rt).take(first, now);
    if let Some(lease) = lease_of(taken)? {
        return Ok(Some(lease));
    }
    let other = match first {
        QueueName::Hog => QueueName::Fetch,
        QueueName::Fetch => QueueName::Hog,
    };
    let taken = shared.lock(rt).take(other, now);
    lease_of(taken)
}

/// The lease of a take. A take that the keeper refused gives none.
fn lease_of<C: Course>(
    taken: Result<Option<Lease<C>>, TakeStop>,
) -> Result<Option<Lease<C>>, AllocError> {
    match taken {
        Ok(lease) => Ok(lease),
        Err(TakeStop::Keeper) => Ok(None),
        Err(TakeStop::OutOfMemory) => Err(AllocError),
    }
}

fn after_sweep(swept: Result<u32, TakeStop>) -> Result<Went, AllocError> {
    match swept {
        Ok(0) => Ok(Went::Idle),
        Ok(_) => Ok(Went::On),
        Err(TakeStop::Keeper) => Ok(Went::Idle),
        Err(TakeStop::OutOfMemory) => Err(AllocError),
    }
}

/// Has the hand run a job, or answer its request.
fn product_of<C: Course, W: Hand<C>>(
    alloc: Global,
    lease: &Lease<C>,
    hand: &mut W,
) -> Result<Product<C>, AllocError> {
    match lease.queue {
        QueueName::Hog => Ok(Product::Ran(hand.work(alloc, lease)?)),
        QueueName::Fetch => match hand.answer(alloc, lease) {
            Ok(answered) => Ok(Product::Replied(answered)),
            Err(AnswerStop::Failed) => Ok(Product::Missed),
            Err(AnswerStop::OutOfMemory) => Err(AllocError),
        },
    }
}

/// Sends a heartbeat where the lease is old, and flushes what there is for it, or puts its job back. A lease that is lost,
/// or that the keeper refuses, is dropped.
fn commit<R: Wait, C: Course, K: Keeper, T: Clock, J: Opening>(
    rt: &R,
    shared: &Mutex<Shared<C, K, J>>,
    clock: &T,
    taken_at: u64,
    lock: LockId,
    product: Product<C>,
) -> Result<(), AllocError>
    requires { (n : ℕ) → T.shows n → J.moments n }
{
    let now = clock.now();
    if now.saturating_sub(taken_at) >= BEAT_AFTER {
        let beat = shared.lock(rt).beat(lock, now);
        if !is_held(beat)? {
            return Ok(());
        }
    }
    flush(rt, shared, now, lock, product)
}

/// Flushes what there is for a lease, or puts its job back.
fn flush<R: Wait, C: Course, K: Keeper, J: Opening>(
    rt: &R,
    shared: &Mutex<Shared<C, K, J>>,
    now: u64,
    lock: LockId,
    product: Product<C>,
) -> Result<(), AllocError> {
    let flushed = match product {
        Product::Ran(run) => stop_of(shared.lock(rt).flush_run(lock, run)),
        Product::Replied(answered) => stop_of(shared.lock(rt).flush_reply(lock, answered)),
        Product::Missed => shared.lock(rt).put_back(lock, now.saturating_add(BACK_FOR)),
    };
    is_held(flushed)?;
    Ok(())
}

/// The refusal of a flush, without the value that it hands back.
fn stop_of<T: Drop>(flushed: Result<(), Refused<T>>) -> Result<(), LeaseStop> {
    match flushed {
        Ok(()) => Ok(()),
        Err(refused) => Err(refused.stop),
    }
}

/// Whether a call under a lease was no refused step. Want of memory is an error.
fn is_held(called: Result<(), LeaseStop>) -> Result<bool, AllocError> {
    match called {
        Ok(()) => Ok(true),
        Err(LeaseStop::OutOfMemory) => Err(AllocError),
        Err(_) => Ok(false),
    }
}
