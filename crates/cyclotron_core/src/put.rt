//! Changes of one row, which the keeper may refuse. A refused change is undone.

ghost use Rattle.std.specs.Prelude.{◌≡◌, ◌<◌, ◌++◌, ◌∷◌, [], List, length, vec_len, OnOk, OnErr, IfOk, IfErr, is_ok};
ghost use Rattle.hog_outside.specs.Faults.{Rose};
ghost use Rattle.cyclotron_jobs.specs.declared.input.Reply.{Reply};
ghost use Rattle.cyclotron_jobs.specs.declared.row.After.{After};
ghost use Rattle.cyclotron_jobs.specs.Course.{next_of, asks_of};
ghost use Rattle.queue_history.specs.Facts.{queue_at, state_after};
ghost use Rattle.cyclotron_core.specs.Changes.{row_after_take, row_after_beat, row_after_run, row_after_reply, row_after_put_back, row_after_sweep};
ghost use Rattle.cyclotron_core.specs.Puts.{IsPut, LeaseFails, lease_stop_of, TakeFails, take_stop_of};
ghost use Rattle.cyclotron_core.specs.Queue.{IsRoom};

use crate::stop::TakeStop;
use cyclotron_jobs::course::Course;
use cyclotron_jobs::input::{Replies, Reply};
use cyclotron_jobs::lease::{Advance, Answered};
use cyclotron_jobs::refused::{LeaseStop, Refused};
use cyclotron_jobs::row::{After, JobState, Next, QueueName, Row};
use hog_value::trace::Request;
use job_keeper::keeper::{KeepStop, Keeper};
use lock_ids::lock::LockId;
use std::mem;

fn lease_stop(stop: KeepStop) -> LeaseStop
    ensures { result ≡ lease_stop_of stop }
{
    match stop {
        KeepStop::Failed => LeaseStop::Keeper,
        KeepStop::OutOfMemory => LeaseStop::OutOfMemory,
    }
}

fn take_stop(stop: KeepStop) -> TakeStop
    ensures { result ≡ take_stop_of stop }
{
    match stop {
        KeepStop::Failed => TakeStop::Keeper,
        KeepStop::OutOfMemory => TakeStop::OutOfMemory,
    }
}

/// The row of a new job.
pub fn put_new<K: Keeper>(row: &Row, keeper: &mut K) -> Result<(), TakeStop>
    ensures put { IsPut K.faults K.tells K.held K.sure keeper.old keeper.new row.now (is_ok result) }
    ensures refused { IfErr result (TakeFails (Rose (K.faults keeper.old) (K.faults keeper.new))) }
{
    match keeper.put(row) {
        Ok(()) => Ok(()),
        Err(stop) => Err(take_stop(stop)),
    }
}

/// The job is leased.
pub fn put_take<K: Keeper>(
    row: &mut Row,
    keeper: &mut K,
    lock: LockId,
    now: u64,
) -> Result<(), TakeStop>
    ensures ok { OnOk result (row.new ≡ row_after_take lock now row.old) }
    ensures err { OnErr result (row.new ≡ row.old) }
    ensures put { IsPut K.faults K.tells K.held K.sure keeper.old keeper.new (row_after_take lock now row.old) (is_ok result) }
    ensures refused { IfErr result (TakeFails (Rose (K.faults keeper.old) (K.faults keeper.new))) }
{
    let state = mem::replace(&mut row.state, JobState::Running);
    let owner = mem::replace(&mut row.lock, Some(lock));
    let beat = mem::replace(&mut row.beat, now);
    match keeper.put(row) {
        Ok(()) => Ok(()),
        Err(stop) => {
            row.state = state;
            row.lock = owner;
            row.beat = beat;
            Err(take_stop(stop))
        }
    }
}

/// The lease has a heartbeat.
pub fn put_beat<K: Keeper>(row: &mut Row, keeper: &mut K, now: u64) -> Result<(), LeaseStop>
    ensures ok { OnOk result (row.new ≡ row_after_beat now row.old) }
    ensures err { OnErr result (row.new ≡ row.old) }
    ensures put { IsPut K.faults K.tells K.held K.sure keeper.old keeper.new (row_after_beat now row.old) (is_ok result) }
    ensures refused { IfErr result (LeaseFails (Rose (K.faults keeper.old) (K.faults keeper.new))) }
{
    let before = mem::replace(&mut row.beat, now);
    match keeper.put(row) {
        Ok(()) => Ok(()),
        Err(stop) => {
            row.beat = before;
            Err(lease_stop(stop))
        }
    }
}

fn split(after: After) -> (Next, Option<Request>)
    ensures next { result.0 ≡ next_of after }
    ensures asks { result.1 ≡ asks_of after }
{
    match after {
        After::Hog => (Next::Hog, None),
        After::Fetch(request) => (Next::Fetch, Some(request)),
        After::Finished => (Next::Finished, None),
    }
}

fn join(next: Next, asks: Option<Request>) -> After
    ensures { (after : After) → next ≡ next_of after → asks ≡ asks_of after → result ≡ after }
{
    match asks {
        Some(request) => After::Fetch(request),
        None => match next {
            Next::Finished => After::Finished,
            _ => After::Hog,
        },
    }
}

fn queue_for(next: Next) -> QueueName
    ensures { result ≡ queue_at next }
{
    match next {
        Next::Hog => QueueName::Hog,
        Next::Fetch => QueueName::Fetch,
        Next::Finished => QueueName::Hog,
    }
}

fn state_for(next: Next) -> JobState
    ensures { result ≡ state_after next }
{
    match next {
        Next::Hog => JobState::Available,
        Next::Fetch => JobState::Available,
        Next::Finished => JobState::Completed,
    }
}

/// A run is committed.
pub fn put_run<C: Course, K: Keeper>(
    row: &mut Row,
    keeper: &mut K,
    run: Advance<C>,
) -> Result<(), Refused<Advance<C>>>
    ensures ok { OnOk result (row.new ≡ row_after_run run row.old) }
    ensures err { OnErr result (row.new ≡ row.old) }
    ensures back { IfErr result (λ r. r.back ≡ run) }
    ensures put { IsPut K.faults K.tells K.held K.sure keeper.old keeper.new (row_after_run run row.old) (is_ok result) }
    ensures refused { IfErr result (λ r. LeaseFails (Rose (K.faults keeper.old) (K.faults keeper.new)) r.stop) }
{
    let Advance {
        input,
        replies,
        from,
        to,
        saved,
        shown,
        after,
        course,
    } = run;
    let (next, asks) = split(after);
    let queue = mem::replace(&mut row.queue, queue_for(next));
    let state = mem::replace(&mut row.state, state_for(next));
    let lock = mem::replace(&mut row.lock, None);
    let ops = mem::replace(&mut row.ops, to);
    let tries = mem::replace(&mut row.tries, 0);
    let saved = mem::replace(&mut row.saved, saved);
    let shown = mem::replace(&mut row.shown, shown);
    let asks = mem::replace(&mut row.asks, asks);
    match keeper.put(row) {
        Ok(()) => Ok(()),
        Err(stop) => {
            row.queue = queue;
            row.state = state;
            row.lock = lock;
            row.ops = ops;
            row.tries = tries;
            let saved = mem::replace(&mut row.saved, saved);
            let shown = mem::replace(&mut row.shown, shown);
            let asks = mem::replace(&mut row.asks, asks);
            let after = join(next, asks);
            Err(Refused {
                stop: lease_stop(stop),
                back: Advance {
                    input,
                    replies,
                    from,
                    to,
                    saved,
                    shown,
                    after,
                    course,
                },
            })
        }
    }
}

/// A reply is committed: it goes into the row, by the room that was made for it, and its twin is handed on.
pub fn put_reply<C: Course, K: Keeper>(
    row: &mut Row,
    room: &mut Vec<Reply>,
    keeper: &mut K,
    answered: Answered<C>,
) -> Result<Reply, Refused<Answered<C>>>
    requires { IsRoom row.old.replies room.old }
    ensures twin { IfOk result (λ reply. reply ≡ answered.reply) }
    ensures ok { OnOk result (row.new ≡ row_after_reply answered.reply row.old) }
    ensures err { OnErr result (row.new ≡ row.old) }
    ensures room { OnErr result (IsRoom row.old.replies room.new) }
    ensures back { IfErr result (λ r. r.back ≡ answered) }
    ensures put { IsPut K.faults K.tells K.held K.sure keeper.old keeper.new (row_after_reply answered.reply row.old) (is_ok result) }
    ensures refused { IfErr result (λ r. LeaseFails (Rose (K.faults keeper.old) (K.faults keeper.new)) r.stop) }
{
    let Answered {
        input,
        replies,
        from,
        reply,
        twin,
        course,
    } = answered;
    let alloc = *room.allocator();
    let mut grown = mem::replace(room, Vec::new(alloc));
    grown.push_reserved(reply);
    let before = mem::replace(&mut row.replies, Replies::new(grown));
    let queue = mem::replace(&mut row.queue, QueueName::Hog);
    let state = mem::replace(&mut row.state, JobState::Available);
    let lock = mem::replace(&mut row.lock, None);
    let tries = mem::replace(&mut row.tries, 0);
    let asks = mem::replace(&mut row.asks, None);
    match keeper.put(row) {
        Ok(()) => Ok(twin),
        Err(stop) => {
            row.queue = queue;
            row.state = state;
            row.lock = lock;
            row.tries = tries;
            row.asks = asks;
            let (grown, reply) = last_of(mem::replace(&mut row.replies, before).into_items());
            *room = grown;
            Err(Refused {
                stop: lease_stop(stop),
                back: Answered {
                    input,
                    replies,
                    from,
                    reply,
                    twin,
                    course,
                },
            })
        }
    }
}

/// What stands before the last reply, with room for it, and the last reply.
fn last_of(mut replies: Vec<Reply>) -> (Vec<Reply>, Reply)
    requires { 0 < vec_len replies }
    ensures { (before : List Reply) (last : Reply) → replies.items ≡ before ++ last ∷ [] → IsRoom before result.0 × (result.1 ≡ last) }
{
    let at = replies.len() - 1;
    let last = replies.remove(at);
    (replies, last)
}

/// The job is put back until a later moment.
pub fn put_back<K: Keeper>(row: &mut Row, keeper: &mut K, at: u64) -> Result<(), LeaseStop>
    ensures ok { OnOk result (row.new ≡ row_after_put_back at row.old) }
    ensures err { OnErr result (row.new ≡ row.old) }
    ensures put { IsPut K.faults K.tells K.held K.sure keeper.old keeper.new (row_after_put_back at row.old) (is_ok result) }
    ensures refused { IfErr result (LeaseFails (Rose (K.faults keeper.old) (K.faults keeper.new))) }
{
    let state = mem::replace(&mut row.state, JobState::Available);
    let lock = mem::replace(&mut row.lock, None);
    let scheduled = mem::replace(&mut row.scheduled, at);
    let more = row.tries.saturating_add(1);
    let tries = mem::replace(&mut row.tries, more);
    match keeper.put(row) {
        Ok(()) => Ok(()),
        Err(stop) => {
            row.state = state;
            row.lock = lock;
            row.scheduled = scheduled;
            row.tries = tries;
            Err(lease_stop(stop))
        }
    }
}

/// The job is swept; the third time it is failed.
pub fn put_sweep<K: Keeper>(row: &mut Row, keeper: &mut K, now: u64) -> Result<(), TakeStop>
    requires { length row.old.sweeps < 3 }
    ensures ok { OnOk result (row.new ≡ row_after_sweep now row.old) }
    ensures err { OnErr result (row.new ≡ row.old) }
    ensures put { IsPut K.faults K.tells K.held K.sure keeper.old keeper.new (row_after_sweep now row.old) (is_ok result) }
    ensures refused { IfErr result (TakeFails (Rose (K.faults keeper.old) (K.faults keeper.new))) }
{
    let after = if row.sweeps.len() == 2 {
        JobState::Failed
    } else {
        JobState::Available
    };
    let state = mem::replace(&mut row.state, after);
    let owner = mem::replace(&mut row.lock, None);
    row.sweeps.push(now, row.beat);
    match keeper.put(row) {
        Ok(()) => Ok(()),
        Err(stop) => {
            row.state = state;
            row.lock = owner;
            row.sweeps.pop();
            Err(take_stop(stop))
        }
    }
}
