//! What each step says and does.

ghost use Rattle.std.specs.Prelude.{◌≡◌, ◌≤◌, ◌<◌, ◌↔◌, ℕ, List, length, slice_get, Some, None, IfOk, IfErr, OnOk, OnErr, IfSome, IsSome, IsTrue};
ghost use Rattle.std.specs.List.{All};
ghost use Rattle.cyclotron_jobs.specs.declared.entry.Entry.{Entry};
ghost use Rattle.cyclotron_jobs.specs.declared.row.Row.{Row};
ghost use Rattle.cyclotron_core.specs.Changes.{IsOneStep, IsUntouched};
ghost use Rattle.cyclotron_core.specs.Refusals.{IsOwner, KeeperRose, Refuses};
ghost use Rattle.hog_jobs.specs.Inputs.{IsInput};
ghost use Rattle.script_reader.specs.Steps.{IsFit};
ghost use Rattle.script_steps.specs.Free.{HandIsFree, IsFree};
ghost use Rattle.script_steps.specs.Play.{Acts, Backs, Beats, Enqueues, Flushes, Forges, Loses, ActsAt, ProductBegan, Replies, RoseBy, Sweeps, Takes, Works, answer_to, entry_of, faults_in, scene_at, scene_of, row_after, said_of, stage_of, worker_of};

use crate::said::{Held, Product, Said};
use cyclotron_core::queue::QueueState;
use cyclotron_core::stop::{EnqueueStop, TakeStop};
use cyclotron_jobs::input::{JobInput, Reply};
use cyclotron_jobs::lease::{Advance, Answered, Lease};
use cyclotron_jobs::refused::{LeaseStop, Refused};
use cyclotron_jobs::row::{After, JobState, QueueName};
use hog_jobs::HogCourse;
use hog_worker::work;
use job_keeper::keeper::Keeper;
use lock_ids::lock::LockId;
use script_reader::Step;
use std::alloc::{AllocError, Global};
use std::marker::PhantomData;

/// Adds a job with a copy of the input.
fn enqueue<K: Keeper>(
    queue: &mut QueueState<HogCourse, K>,
    input: &JobInput,
    priority: i16,
    at: u64,
) -> Result<Said, AllocError>
    requires { IsInput input.now }
    ensures acts { IfOk result (λ said. Enqueues input.now priority at (scene_of queue.old None) said (scene_of queue.new None)) }
    ensures faults { IfOk result (λ said. RoseBy (faults_in said) (K.faults queue.old.keeper) (K.faults queue.new.keeper)) }
{
    match queue.enqueue(input.copy()?, priority, at) {
        Ok(job) => Ok(Said::Job(job)),
        Err(EnqueueStop::Full) => Ok(Said::Full),
        Err(EnqueueStop::Keeper) => Ok(Said::Keeper),
        Err(EnqueueStop::OutOfMemory) => Err(AllocError),
    }
}

/// Whether a job is failed.
fn is_failed<K: Keeper>(queue: &QueueState<HogCourse, K>, job: u32) -> bool
    ensures { (row : Row) → slice_get queue.now.rows job ≡ Some row → IsTrue result ↔ (row.state ≡ JobState.Failed) }
{
    match queue.row(job) {
        Some(row) => row.state == JobState::Failed,
        None => false,
    }
}

/// Sweeps the job that is stale first.
fn sweep<K: Keeper>(queue: &mut QueueState<HogCourse, K>, now: u64) -> Result<Said, AllocError>
    ensures acts { IfOk result (λ said. Sweeps now (scene_of queue.old None) said (scene_of queue.new None)) }
    ensures faults { IfOk result (λ said. RoseBy (faults_in said) (K.faults queue.old.keeper) (K.faults queue.new.keeper)) }
{
    match queue.sweep_one(now) {
        Ok(Some(job)) => {
            if is_failed(queue, job) {
                Ok(Said::Poisoned(job))
            } else {
                Ok(Said::Job(job))
            }
        }
        Ok(None) => Ok(Said::Nothing),
        Err(TakeStop::Keeper) => Ok(Said::Keeper),
        Err(TakeStop::OutOfMemory) => Err(AllocError),
    }
}

/// Takes the job that is due first, where the worker holds nothing.
fn take<K: Keeper>(
    queue: &mut QueueState<HogCourse, K>,
    hand: &mut Option<Held>,
    on: QueueName,
    now: u64,
) -> Result<Said, AllocError>
    ensures acts { IfOk result (λ said. Takes on now (scene_of queue.old hand.old) said (scene_of queue.new hand.new)) }
    ensures faults { IfOk result (λ said. RoseBy (faults_in said) (K.faults queue.old.keeper) (K.faults queue.new.keeper)) }
{
    if hand.is_some() {
        return Ok(Said::Busy);
    }
    match queue.take(on, now) {
        Ok(Some(lease)) => {
            let held = held_of(lease);
            let lock = held.lock;
            *hand = Some(held);
            Ok(Said::Taken(lock))
        }
        Ok(None) => Ok(Said::Nothing),
        Err(TakeStop::Keeper) => Ok(Said::Keeper),
        Err(TakeStop::OutOfMemory) => Err(AllocError),
    }
}

/// What a worker holds of a lease that it took.
fn held_of(lease: Lease<HogCourse>) -> Held
    ensures { result ≡ record { lock = lease.lock; lease = lease; product = None } }
{
    Held {
        lock: lease.lock,
        lease,
        product: None,
    }
}

/// A heartbeat under the worker's lock.
fn beat<K: Keeper>(
    queue: &mut QueueState<HogCourse, K>,
    hand: &mut Option<Held>,
    now: u64,
) -> Result<Said, AllocError>
    ensures acts { IfOk result (λ said. Beats now (scene_of queue.old hand.old) said (scene_of queue.new hand.new)) }
    ensures faults { IfOk result (λ said. RoseBy (faults_in said) (K.faults queue.old.keeper) (K.faults queue.new.keeper)) }
{
    let Some(held) = hand else {
        return Ok(Said::Idle);
    };
    match queue.beat(held.lock, now) {
        Ok(()) => Ok(Said::Fine),
        Err(stop) => match stop {
            LeaseStop::OutOfMemory => Err(AllocError),
            _ => Ok(Said::Refused(stop)),
        },
    }
}

/// Puts the worker's job back until a moment, under the worker's lock.
fn back<K: Keeper>(
    queue: &mut QueueState<HogCourse, K>,
    hand: &mut Option<Held>,
    at: u64,
) -> Result<Said, AllocError>
    ensures acts { IfOk result (λ said. Backs at (scene_of queue.old hand.old) said (scene_of queue.new hand.new)) }
    ensures faults { IfOk result (λ said. RoseBy (faults_in said) (K.faults queue.old.keeper) (K.faults queue.new.keeper)) }
{
    let Some(held) = hand else {
        return Ok(Said::Idle);
    };
    match queue.put_back(held.lock, at) {
        Ok(()) => {
            *hand = None;
            Ok(Said::Fine)
        }
        Err(stop) => match stop {
            LeaseStop::OutOfMemory => Err(AllocError),
            _ => Ok(Said::Refused(stop)),
        },
    }
}

/// Whether a worker can make a product: it holds a lease on the queue, and no product of it.
fn can_make(held: &Held, on: QueueName) -> bool
    ensures { IsTrue result ↔ ((held.now.lease.queue ≡ on) × (held.now.product ≡ None)) }
{
    held.lease.queue == on && held.product.is_none()
}

/// What is said of a run.
fn said_of(run: &Advance<HogCourse>) -> Said
    ensures { result ≡ said_of run.now.after run.now.to }
{
    match run.after {
        After::Hog => Said::Sliced(run.to),
        After::Fetch(_) => Said::Asks(run.to),
        After::Finished => Said::Ended(run.to),
    }
}

/// Works on the worker's lease.
fn work_on(alloc: Global, hand: &mut Option<Held>, slice: u32) -> Result<Said, AllocError>
    requires { 1 ≤ slice }
    ensures { (rows : List Row) (history : List Entry) →
        IfOk result (λ said. Works slice (scene_at rows history hand.old) said (scene_at rows history hand.new)) }
{
    let Some(held) = hand else {
        return Ok(Said::Idle);
    };
    if !can_make(held, QueueName::Hog) {
        return Ok(Said::Idle);
    }
    let run = work(alloc, &held.lease, slice)?;
    let said = said_of(&run);
    held.product = Some(Product::Run(run));
    Ok(said)
}

/// A reply to the request of a lease whose job takes any.
fn answer_to(lease: &Lease<HogCourse>, reply: &Reply) -> Result<Answered<HogCourse>, AllocError>
    requires { IsFree lease.now.input }
    ensures { IfOk result (λ answered. answered ≡ answer_to lease.now reply.now) }
{
    Ok(Answered {
        input: lease.input.copy()?,
        replies: lease.replies.copy()?,
        from: lease.ops,
        reply: reply.copy()?,
        twin: reply.copy()?,
        course: PhantomData,
    })
}

/// Answers the request of the worker's lease.
fn answer(hand: &mut Option<Held>, reply: &Reply) -> Result<Said, AllocError>
    requires { HandIsFree hand.old }
    ensures { (rows : List Row) (history : List Entry) →
        IfOk result (λ said. Replies reply.now (scene_at rows history hand.old) said (scene_at rows history hand.new)) }
{
    let Some(held) = hand else {
        return Ok(Said::Idle);
    };
    if !can_make(held, QueueName::Fetch) {
        return Ok(Said::Idle);
    }
    let answered = answer_to(&held.lease, reply)?;
    held.product = Some(Product::Reply(answered));
    Ok(Said::Answered(reply.status))
}

/// Flushes a product under a lock. A refusal hands it back.
fn flush_product<K: Keeper>(
    queue: &mut QueueState<HogCourse, K>,
    lock: LockId,
    product: Product,
) -> Result<(), Refused<Product>>
    ensures ok { OnOk result (IsOneStep K.tells K.held queue.old queue.new lock.job
        (row_after product) (entry_of lock product)) }
    ensures owner { OnOk result (IsOwner queue.old.history lock) }
    ensures began { OnOk result (ProductBegan queue.old.rows lock.job product) }
    ensures refused { IfErr result (λ r. Refuses queue.old.history lock
        (ProductBegan queue.old.rows lock.job product) (KeeperRose K.faults queue.old queue.new) r.stop) }
    ensures back { IfErr result (λ r. r.back ≡ product) }
    ensures err { OnErr result (IsUntouched K.tells K.held queue.old queue.new) }
    ensures count { K.faults queue.old.keeper ≤ K.faults queue.new.keeper }
{
    match product {
        Product::Run(run) => match queue.flush_run(lock, run) {
            Ok(()) => Ok(()),
            Err(refused) => Err(Refused {
                stop: refused.stop,
                back: Product::Run(refused.back),
            }),
        },
        Product::Reply(answered) => match queue.flush_reply(lock, answered) {
            Ok(()) => Ok(()),
            Err(refused) => Err(Refused {
                stop: refused.stop,
                back: Product::Reply(refused.back),
            }),
        },
    }
}

/// Flushes the worker's product under the worker's lock.
fn flush<K: Keeper>(
    queue: &mut QueueState<HogCourse, K>,
    hand: &mut Option<Held>,
) -> Result<Said, AllocError>
    ensures acts { IfOk result (λ said. Flushes (scene_of queue.old hand.old) said (scene_of queue.new hand.new)) }
    ensures faults { IfOk result (λ said. RoseBy (faults_in said) (K.faults queue.old.keeper) (K.faults queue.new.keeper)) }
{
    let Some(held) = hand else {
        return Ok(Said::Idle);
    };
    let Some(product) = held.product.take() else {
        return Ok(Said::Idle);
    };
    match flush_product(queue, held.lock, product) {
        Ok(()) => {
            *hand = None;
            Ok(Said::Fine)
        }
        Err(refused) => {
            held.product = Some(refused.back);
            match refused.stop {
                LeaseStop::OutOfMemory => Err(AllocError),
                stop => Ok(Said::Refused(stop)),
            }
        }
    }
}

/// The worker loses what it holds.
fn lose(hand: &mut Option<Held>) -> Said
    ensures { (rows : List Row) (history : List Entry) →
        Loses (scene_at rows history hand.old) result (scene_at rows history hand.new) }
{
    if hand.is_none() {
        return Said::Idle;
    }
    *hand = None;
    Said::Fine
}

/// The worker acts from now on under another lock.
fn forge(hand: &mut Option<Held>, lock: LockId) -> Said
    ensures { (rows : List Row) (history : List Entry) →
        Forges lock (scene_at rows history hand.old) result (scene_at rows history hand.new) }
{
    match hand {
        None => Said::Idle,
        Some(held) => {
            held.lock = lock;
            Said::Fine
        }
    }
}

/// The worker of a step, where it has one.
fn worker_of(step: &Step) -> Option<u8>
    requires { IsFit step.now }
    ensures value { result ≡ worker_of step.now }
    ensures within { IfSome result (λ worker. worker < 16) }
{
    match step {
        Step::Enqueue { .. } => None,
        Step::Take { worker, .. } => Some(*worker),
        Step::Beat { worker, .. } => Some(*worker),
        Step::Work { worker, .. } => Some(*worker),
        Step::Answer { worker, .. } => Some(*worker),
        Step::Flush { worker } => Some(*worker),
        Step::Sweep { .. } => None,
        Step::Lose { worker } => Some(*worker),
        Step::Forge { worker, .. } => Some(*worker),
        Step::Back { worker, .. } => Some(*worker),
    }
}

/// A step of no worker.
fn act_alone<K: Keeper>(
    queue: &mut QueueState<HogCourse, K>,
    step: &Step,
) -> Result<Said, AllocError>
    requires fit { IsFit step.now }
    requires alone { worker_of step.now ≡ None }
    ensures acts { IfOk result (λ said. ActsAt step.now (scene_of queue.old None) said (scene_of queue.new None)) }
    ensures faults { IfOk result (λ said. RoseBy (faults_in said) (K.faults queue.old.keeper) (K.faults queue.new.keeper)) }
{
    match step {
        Step::Enqueue {
            input,
            priority,
            at,
        } => enqueue(queue, input, *priority, *at),
        Step::Sweep { now } => sweep(queue, *now),
        _ => unreachable!(),
    }
}

/// A step of a worker, with what its hand holds.
fn act_by<K: Keeper>(
    alloc: Global,
    queue: &mut QueueState<HogCourse, K>,
    hand: &mut Option<Held>,
    step: &Step,
) -> Result<Said, AllocError>
    requires fit { IsFit step.now }
    requires by { IsSome (worker_of step.now) }
    requires free { HandIsFree hand.old }
    ensures acts { IfOk result (λ said. ActsAt step.now (scene_of queue.old hand.old) said (scene_of queue.new hand.new)) }
    ensures faults { IfOk result (λ said. RoseBy (faults_in said) (K.faults queue.old.keeper) (K.faults queue.new.keeper)) }
{
    match step {
        Step::Take { queue: on, now, .. } => take(queue, hand, *on, *now),
        Step::Beat { now, .. } => beat(queue, hand, *now),
        Step::Work { slice, .. } => work_on(alloc, hand, *slice),
        Step::Answer { reply, .. } => answer(hand, reply),
        Step::Flush { .. } => flush(queue, hand),
        Step::Lose { .. } => Ok(lose(hand)),
        Step::Forge { job, draw, .. } => Ok(forge(hand, LockId::of(*job, *draw))),
        Step::Back { at, .. } => back(queue, hand, *at),
        _ => unreachable!(),
    }
}

/// What a step says and does.
pub(crate) fn act<K: Keeper>(
    alloc: Global,
    queue: &mut QueueState<HogCourse, K>,
    hands: &mut [Option<Held>],
    step: &Step,
) -> Result<Said, AllocError>
    requires fit { IsFit step.now }
    requires hands { length hands.old ≡ 16 }
    requires free { All HandIsFree hands.old }
    ensures acts { IfOk result (λ said. Acts step.now (stage_of queue.old hands.old) said (stage_of queue.new hands.new)) }
    ensures faults { IfOk result (λ said. RoseBy (faults_in said) (K.faults queue.old.keeper) (K.faults queue.new.keeper)) }
{
    match worker_of(step) {
        Some(worker) => act_by(alloc, queue, &mut hands[worker as usize], step),
        None => act_alone(queue, step),
    }
}
