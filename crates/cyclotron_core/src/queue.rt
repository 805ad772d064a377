//! A queue of leased jobs.

ghost use Rattle.std.specs.Prelude.{ℕ, ◌≡◌, ◌≤◌, ◌<◌, ◌+◌, ◌↔◌, [], length, true, None, Some, OnOk, OnErr, IfOk, IfErr, IfNone, IfSome, IsOk, IsTrue, IsNone, MatchOption, count_by, slice_get, Option, vec_len, vec_capacity};
ghost use Rattle.std.specs.Bool.{OnFalse};
ghost use Rattle.std.specs.Option.{option_copied};
ghost use Rattle.lock_ids.specs.declared.lock.LockId.{LockId};
ghost use Rattle.cyclotron_jobs.specs.Course.{next_of};
ghost use Rattle.queue_history.specs.Facts.{facts_of, jobs_of, takes_of};
ghost use Rattle.queue_history.specs.Due.{NoneDue, IsFirstDue, IsDueRow, turn_cmp, turn_of_row, NoneStale, IsFirstStale, IsStaleRow, silence_cmp, silence_of_row};
ghost use Rattle.queue_history.specs.Rows.{IsKept, IsOnCourse, RowIs, IsNewRow};
ghost use Rattle.cyclotron_core.specs.Queue.{HoldsRows};
ghost use Rattle.cyclotron_core.specs.Changes.{IsOneStep, IsUntouched, IsEnqueue, IsTake, IsSweep, IsLeaseAt, HasState, IsGrown, is_unfinished, row_after_beat, row_after_run, row_after_reply, row_after_put_back};
ghost use Rattle.cyclotron_core.specs.Flushes.{Flushes};
ghost use Rattle.cyclotron_core.specs.Refusals.{IsOwner, IsOwnedBy, BeganAt, RunBegan, AnswerBegan, KeeperRose, Refuses, Finds, FindFails};

use crate::listing::{LISTS, RUNNING, move_job, place, waiting};
use crate::put::{put_back, put_beat, put_new, put_reply, put_run, put_sweep, put_take};
use crate::stop::{EnqueueStop, TakeStop};
use cyclotron_jobs::course::Course;
use cyclotron_jobs::entry::Entry;
use cyclotron_jobs::input::{JobInput, Replies, Reply};
use cyclotron_jobs::lease::{Advance, Answered, Lease};
use cyclotron_jobs::refused::{LeaseStop, Refused};
use cyclotron_jobs::row::{After, JobState, Next, QueueName, Row, copy_asks};
use cyclotron_jobs::sweeps::Sweeps;
use hog_value::items::Bytes;
use hog_value::trace::{Shown, Trace};
use index_lists::Lists;
use job_keeper::keeper::Keeper;
use lock_ids::lock::LockId;
use queue_history::MOST_JOBS;
use queue_history::turn::is_silent;
use std::alloc::{AllocError, Global};
use std::marker::{Model, PhantomData};
use std::snapshot::Snapshot;

/// A queue of leased jobs. Moments are in milliseconds.
#[derive(Drop)]
pub struct QueueState<C: Course, K: Keeper> {
    // By job number.
    rows: Vec<Row>,
    // For each running job, a copy of its replies with room for one more, so that a flush takes no memory.
    rooms: Vec<Vec<Reply>>,
    // Where the jobs stand that wait or run.
    lists: Lists,
    history: Vec<Entry>,
    // How many takes there were.
    draws: u64,
    keeper: K,
    course: PhantomData<C>,
}

impl<C: Course, K: Keeper> Model for QueueState<C, K> {
    ghost use Rattle.std.specs.Prelude.{◌-◌, vec_len, vec_capacity};
    ghost use Rattle.cyclotron_core.specs.Queue.{QueueOf, IsQueue};

    ghost Value = { QueueOf K };

    ghost view = { λ q. record {
      rows = q.rows.items;
      history = q.history.items;
      spare = vec_capacity q.history - vec_len q.history;
      keeper = q.keeper;
    } };

    ghost invariant = { λ q.
        IsQueue C.takes C.on_course C.reply_ok K.tells q.rows.items q.history.items q.draws (K.held q.keeper) q.rooms.items q.lists };
}

impl<C: Course, K: Keeper> QueueState<C, K> {
    /// An empty queue. Takes no memory.
    pub fn new(alloc: Global, keeper: K) -> QueueState<C, K>
        ensures rows { result.rows ≡ [] }
        ensures history { result.history ≡ [] }
        ensures keeper { result.keeper ≡ keeper }
    {
        QueueState {
            rows: Vec::new(alloc),
            rooms: Vec::new(alloc),
            lists: Lists::new(alloc, LISTS),
            history: Vec::new(alloc),
            draws: 0,
            keeper,
            course: PhantomData,
        }
    }

    /// The history. Whatever calls were made, it is legal, each row is the row of its job, each job is on course,
    /// and the keeper holds each row where it tells them. Takes no memory.
    pub fn history(&self) -> &[Entry]
        ensures value { result.now ≡ self.now.history }
        ensures kept { IsKept C.takes C.on_course C.reply_ok self.now.rows self.now.history }
        ensures told { HoldsRows K.tells (K.held self.now.keeper) self.now.rows }
    {
        self.history.as_slice()
    }

    /// The row of a job, where it is there. Takes no memory.
    pub fn row(&self, job: u32) -> Option<&Row>
        ensures row { option_copied result ≡ slice_get self.now.rows job }
        ensures none { IsNone result ↔ (jobs_of self.now.history ≤ job) }
        ensures is { IfSome result (λ row. RowIs (facts_of job self.now.history) row.now) }
        ensures on_course { IfSome result (λ row. IsOnCourse C.on_course row.now) }
    {
        self.rows.get(job as usize)
    }

    /// How many jobs are neither completed nor failed. Takes no memory.
    pub fn unfinished(&self) -> u32
        ensures { result ≡ count_by is_unfinished self.now.rows }
    {
        unfinished_in(self.rows.as_slice())
    }

    /// Takes no memory.
    pub fn keeper(&self) -> &K
        ensures { result.now ≡ self.now.keeper }
    {
        &self.keeper
    }

    /// Takes no memory.
    pub fn into_keeper(self) -> K
        ensures { result ≡ self.keeper }
    {
        self.keeper
    }

    /// Makes room for at least `n` more entries.
    pub fn reserve(&mut self, n: u32) -> Result<(), AllocError>
        ensures room { OnOk result (n ≤ self.new.spare) }
        ensures spare { self.old.spare ≤ self.new.spare }
        ensures rows { self.new.rows ≡ self.old.rows }
        ensures history { self.new.history ≡ self.old.history }
        ensures keeper { self.new.keeper ≡ self.old.keeper }
    {
        self.history.reserve(n as usize)
    }

    /// Adds a job, available on `Hog` from the moment on, and answers its number.
    pub fn enqueue(&mut self, input: JobInput, priority: i16, at: u64) -> Result<u32, EnqueueStop>
        requires { C.takes input }
        ensures ok { IfOk result (λ job. IsEnqueue K.tells K.held self.old self.new job input priority at) }
        ensures full { (result ≡ Err EnqueueStop.Full) ↔ (MOST_JOBS ≤ jobs_of self.old.history) }
        ensures keeper { result ≡ Err EnqueueStop.Keeper → KeeperRose K.faults self.old self.new }
        ensures err { OnErr result (IsUntouched K.tells K.held self.old self.new) }
        ensures count { K.faults self.old.keeper ≤ K.faults self.new.keeper }
    {
        if self.is_full() {
            return Err(EnqueueStop::Full);
        }
        let alloc = *self.rows.allocator();
        let job = self.rows.len() as u32;
        self.rows.reserve(1)?;
        self.rooms.reserve(1)?;
        self.history.reserve(1)?;
        self.lists.reserve(job + 1)?;
        let row = new_row(alloc, job, input, priority, at);
        put_new(&row, &mut self.keeper)?;
        self.rows.push_reserved(row);
        self.rooms.push_reserved(Vec::new(alloc));
        place(&mut self.lists, self.rows.as_slice(), job);
        self.history
            .push_reserved(Entry::Queued { job, priority, at });
        Ok(job)
    }

    fn is_full(&self) -> bool
        ensures full { IsTrue result ↔ (MOST_JOBS ≤ jobs_of self.now.history) }
        ensures room { OnFalse result (length self.now.rows < MOST_JOBS) }
        ensures jobs { length self.now.rows ≡ jobs_of self.now.history }
    {
        self.rows.len() >= MOST_JOBS
    }

    /// Leases the job that is due first on the queue, or answers None where none is due.
    pub fn take(&mut self, queue: QueueName, now: u64) -> Result<Option<Lease<C>>, TakeStop>
        ensures some { IfOk result (λ o. IfSome o (IsTake K.tells K.held self.old self.new queue now)) }
        ensures none { (result ≡ Ok None) ↔ NoneDue self.old.history queue now }
        ensures keeper { result ≡ Err TakeStop.Keeper → KeeperRose K.faults self.old self.new }
        ensures idle { IfOk result (λ o. IfNone o (IsUntouched K.tells K.held self.old self.new)) }
        ensures err { OnErr result (IsUntouched K.tells K.held self.old self.new) }
        ensures count { K.faults self.old.keeper ≤ K.faults self.new.keeper }
    {
        let Some(job) = self.first_due(queue, now) else {
            return Ok(None);
        };
        let draw = self.next_draw();
        let lock = LockId { job, draw };
        let lease = self.leased(job, lock)?;
        let room = self.rows[job as usize].replies.with_room()?;
        self.history.reserve(1)?;
        let row = &mut self.rows[job as usize];
        put_take(row, &mut self.keeper, lock, now)?;
        self.rooms[job as usize] = room;
        self.draws += 1;
        move_job(&mut self.lists, self.rows.as_slice(), job);
        self.history.push_reserved(Entry::Taken {
            job,
            queue,
            lock,
            now,
        });
        Ok(Some(lease))
    }

    fn next_draw(&self) -> u64
        ensures { result ≡ takes_of self.now.history + 1 }
    {
        self.draws + 1
    }

    /// The job that is due first: the walk passes those whose moment hasn't come.
    fn first_due(&self, queue: QueueName, now: u64) -> Option<u32>
        ensures first { MatchOption result (NoneDue self.now.history queue now) (IsFirstDue self.now.history queue now) }
        ensures row { IfSome result (HasState self.now.rows JobState.Available) }
    {
        let mut at = self.lists.first(waiting(queue));
        'walk: while let Some(job) = at {
            if self.rows[job as usize].scheduled <= now {
                return Some(job);
            }
            at = self.lists.next(job);
        }
        None
    }

    /// The lease of a job that is to be taken.
    fn leased(&self, job: u32, lock: LockId) -> Result<Lease<C>, AllocError>
        requires { HasState self.now.rows JobState.Available job }
        ensures { IfOk result (IsLeaseAt self.now.rows job lock) }
    {
        let row = &self.rows[job as usize];
        Ok(Lease {
            lock,
            queue: row.queue,
            input: row.input.copy()?,
            replies: row.replies.copy()?,
            ops: row.ops,
            tries: row.tries,
            saved: row.saved.copy()?,
            asks: copy_asks(&row.asks)?,
            shown: Snapshot::of(&row.shown),
            course: PhantomData,
        })
    }

    /// Where the row of a live lock stands.
    fn find(&self, lock: LockId) -> Result<usize, LeaseStop>
        ensures found { IfOk result (Finds self.now.rows lock) }
        ensures owner { OnOk result (IsOwner self.now.history lock) }
        ensures refused { IfErr result (FindFails self.now.history lock) }
    {
        let at = lock.job as usize;
        if at >= self.rows.len() {
            return Err(LeaseStop::UnknownJob);
        }
        let row = &self.rows[at];
        let live = row.lock;
        if live != Some(lock) {
            return Err(LeaseStop::WrongLock { live });
        }
        Ok(at)
    }

    /// Whether what is flushed began at the committed state of the job.
    fn began_at(&self, job: u32, input: &JobInput, replies: &Replies, from: u64) -> bool
        requires { job < length self.now.rows }
        ensures { IsTrue result ↔ BeganAt self.now.rows job input.now replies.now from }
    {
        let row = &self.rows[job as usize];
        row.input.is_same(input) && row.replies.is_same(replies) && row.ops == from
    }

    /// A heartbeat of the job's owner: its last sign of life is of `now`, also where that is earlier than the last one.
    pub fn beat(&mut self, lock: LockId, now: u64) -> Result<(), LeaseStop>
        ensures ok { OnOk result (IsOneStep K.tells K.held self.old self.new lock.job
            (row_after_beat now) (Entry.Beat lock.job lock now)) }
        ensures owner { OnOk result (IsOwner self.old.history lock) }
        ensures unknown_job { (result ≡ Err LeaseStop.UnknownJob) ↔ (jobs_of self.old.history ≤ lock.job) }
        ensures wrong_lock { (live : Option LockId) →
            (result ≡ Err (LeaseStop.WrongLock live)) ↔ IsOwnedBy self.old.history lock live }
        ensures refused { IfErr result (Refuses self.old.history lock
            (Unit {0}) (KeeperRose K.faults self.old self.new)) }
        ensures err { OnErr result (IsUntouched K.tells K.held self.old self.new) }
        ensures succeeds { K.sure ≡ true → 1 ≤ self.old.spare → IsOwner self.old.history lock → IsOk result }
        ensures count { K.faults self.old.keeper ≤ K.faults self.new.keeper }
    {
        let at = self.find(lock)?;
        make_room(&mut self.history)?;
        let row = &mut self.rows[at];
        put_beat(row, &mut self.keeper, now)?;
        move_job(&mut self.lists, self.rows.as_slice(), lock.job);
        self.history.push_reserved(Entry::Beat {
            job: lock.job,
            lock,
            now,
        });
        Ok(())
    }

    /// Tests whether a flush may be committed: the lock is the owner's, what is flushed began at the committed state, and
    /// there is room for its entry. Answers where the row stands.
    fn begin_flush(
        &mut self,
        lock: LockId,
        input: &JobInput,
        replies: &Replies,
        from: u64,
    ) -> Result<usize, LeaseStop>
        ensures found { IfOk result (Finds self.new.rows lock) }
        ensures owner { OnOk result (IsOwner self.new.history lock) }
        ensures began { OnOk result (BeganAt self.new.rows lock.job input.now replies.now from) }
        ensures room { OnOk result (1 ≤ self.new.spare) }
        ensures grown { IsGrown self.old self.new }
        ensures refused { IfErr result (Refuses self.old.history lock
            (BeganAt self.old.rows lock.job input.now replies.now from) ⊥) }
        ensures full { IfErr result (λ stop. stop ≡ LeaseStop.OutOfMemory → self.old.spare < 1) }
    {
        let at = self.find(lock)?;
        if !self.began_at(lock.job, input, replies, from) {
            return Err(LeaseStop::NotThisRun);
        }
        make_room(&mut self.history)?;
        Ok(at)
    }

    /// Commits a run of the job's owner, which began at the committed state, and gives the lock up.
    pub fn flush_run(&mut self, lock: LockId, run: Advance<C>) -> Result<(), Refused<Advance<C>>>
        ensures { Flushes K.faults K.tells K.held K.sure self.old self.new lock (RunBegan self.old.rows lock.job run)
            (row_after_run run) (Entry.Ran lock.job lock run.from run.to (next_of run.after)) run result }
    {
        let at = match self.begin_flush(lock, &run.input, &run.replies, run.from) {
            Err(stop) => return Err(Refused { stop, back: run }),
            Ok(at) => at,
        };
        let from = run.from;
        let to = run.to;
        let next = kind_of(&run.after);
        let row = &mut self.rows[at];
        put_run(row, &mut self.keeper, run)?;
        move_job(&mut self.lists, self.rows.as_slice(), lock.job);
        self.history.push_reserved(Entry::Ran {
            job: lock.job,
            lock,
            from,
            to,
            next,
        });
        Ok(())
    }

    /// Commits the reply to a request of the job, and gives the lock up.
    pub fn flush_reply(
        &mut self,
        lock: LockId,
        answered: Answered<C>,
    ) -> Result<(), Refused<Answered<C>>>
        ensures { Flushes K.faults K.tells K.held K.sure self.old self.new lock (AnswerBegan self.old.rows lock.job answered)
            (row_after_reply answered.reply) (Entry.Replied lock.job lock answered.reply) answered result }
    {
        let from = answered.from;
        let at = match self.begin_flush(lock, &answered.input, &answered.replies, from) {
            Err(stop) => {
                return Err(Refused {
                    stop,
                    back: answered,
                });
            }
            Ok(at) => at,
        };
        let row = &mut self.rows[at];
        let room = &mut self.rooms[at];
        let reply = put_reply(row, room, &mut self.keeper, answered)?;
        move_job(&mut self.lists, self.rows.as_slice(), lock.job);
        self.history.push_reserved(Entry::Replied {
            job: lock.job,
            lock,
            reply,
        });
        Ok(())
    }

    /// Puts the job back on its queue until the moment `at`, and gives the lock up.
    pub fn put_back(&mut self, lock: LockId, at: u64) -> Result<(), LeaseStop>
        ensures ok { OnOk result (IsOneStep K.tells K.held self.old self.new lock.job
            (row_after_put_back at) (Entry.PutBack lock.job lock at)) }
        ensures owner { OnOk result (IsOwner self.old.history lock) }
        ensures unknown_job { (result ≡ Err LeaseStop.UnknownJob) ↔ (jobs_of self.old.history ≤ lock.job) }
        ensures wrong_lock { (live : Option LockId) →
            (result ≡ Err (LeaseStop.WrongLock live)) ↔ IsOwnedBy self.old.history lock live }
        ensures refused { IfErr result (Refuses self.old.history lock
            (Unit {0}) (KeeperRose K.faults self.old self.new)) }
        ensures err { OnErr result (IsUntouched K.tells K.held self.old self.new) }
        ensures succeeds { K.sure ≡ true → 1 ≤ self.old.spare → IsOwner self.old.history lock → IsOk result }
        ensures count { K.faults self.old.keeper ≤ K.faults self.new.keeper }
    {
        let place = self.find(lock)?;
        make_room(&mut self.history)?;
        let row = &mut self.rows[place];
        put_back(row, &mut self.keeper, at)?;
        move_job(&mut self.lists, self.rows.as_slice(), lock.job);
        self.history.push_reserved(Entry::PutBack {
            job: lock.job,
            lock,
            at,
        });
        Ok(())
    }

    /// Sweeps the job that is stale first, and answers its number, or None where none is stale.
    pub fn sweep_one(&mut self, now: u64) -> Result<Option<u32>, TakeStop>
        ensures some { IfOk result (λ o. IfSome o (IsSweep K.tells K.held self.old self.new now)) }
        ensures none { (result ≡ Ok None) ↔ NoneStale self.old.history now }
        ensures keeper { result ≡ Err TakeStop.Keeper → KeeperRose K.faults self.old self.new }
        ensures idle { IfOk result (λ o. IfNone o (IsUntouched K.tells K.held self.old self.new)) }
        ensures err { OnErr result (IsUntouched K.tells K.held self.old self.new) }
        ensures succeeds { K.sure ≡ true → 1 ≤ self.old.spare → IsOk result }
        ensures count { K.faults self.old.keeper ≤ K.faults self.new.keeper }
    {
        let Some(job) = self.first_stale(now) else {
            return Ok(None);
        };
        self.history.reserve(1)?;
        let row = &mut self.rows[job as usize];
        let beat = row.beat;
        put_sweep(row, &mut self.keeper, now)?;
        move_job(&mut self.lists, self.rows.as_slice(), job);
        self.history.push_reserved(Entry::Swept { job, now, beat });
        Ok(Some(job))
    }

    /// The job that is stale first: the one that has been silent for longest, where it is stale.
    fn first_stale(&self, now: u64) -> Option<u32>
        ensures first { MatchOption result (NoneStale self.now.history now) (IsFirstStale self.now.history now) }
        ensures row { IfSome result (HasState self.now.rows JobState.Running) }
    {
        let job = self.lists.first(RUNNING)?;
        if is_silent(self.rows[job as usize].beat, now) {
            Some(job)
        } else {
            None
        }
    }
}

/// Makes room for one more entry, for a call under a lock.
fn make_room(history: &mut Vec<Entry>) -> Result<(), LeaseStop>
    ensures items { history.new.items ≡ history.old.items }
    ensures len { vec_len history.new ≡ vec_len history.old }
    ensures capacity { vec_capacity history.old ≤ vec_capacity history.new }
    ensures ok { OnOk result (vec_len history.new < vec_capacity history.new) }
    ensures memory { IfErr result (λ stop. stop ≡ LeaseStop.OutOfMemory) }
    ensures full { OnErr result (vec_capacity history.old ≤ vec_len history.old) }
{
    match history.reserve(1) {
        Ok(()) => Ok(()),
        Err(_) => Err(LeaseStop::OutOfMemory),
    }
}

fn kind_of(after: &After) -> Next
    ensures { result ≡ next_of after.now }
{
    match after {
        After::Hog => Next::Hog,
        After::Fetch(_) => Next::Fetch,
        After::Finished => Next::Finished,
    }
}

fn new_row(alloc: Global, job: u32, input: JobInput, priority: i16, at: u64) -> Row
    ensures { IsNewRow result job input priority at }
{
    Row {
        job,
        input,
        queue: QueueName::Hog,
        state: JobState::Available,
        priority,
        scheduled: at,
        lock: None,
        beat: 0,
        sweeps: Sweeps::new(),
        replies: Replies::new(Vec::new(alloc)),
        ops: 0,
        tries: 0,
        saved: Bytes::new(Vec::new(alloc)),
        shown: Shown {
            trace: Trace::new(Vec::new(alloc)),
            end: None,
        },
        asks: None,
    }
}

fn unfinished_in(rows: &[Row]) -> u32
    requires { length rows.now ≤ MOST_JOBS }
    ensures { result ≡ count_by is_unfinished rows.now }
{
    let mut count = 0;
    for row in rows {
        if row.state == JobState::Available || row.state == JobState::Running {
            count += 1;
        }
    }
    count
}
