//! A pool over jobs that run, ask for one fetch, whose first try fails, and run once more.

use crate::gate::{Gate, Open, Point, Word};
use crate::hand::{AnswerStop, Hand, Post};
use crate::pool::run_jobs;
use crate::totals::Totals;
use clocks::ListClock;
use cyclotron_core::queue::QueueState;
use cyclotron_jobs::course::Course;
use cyclotron_jobs::input::{Answers, JobInput, Reply};
use cyclotron_jobs::lease::{Advance, Answered, Lease};
use cyclotron_jobs::row::{After, QueueName};
use hog_value::text::HogText;
use hog_value::trace::{Request, Shown, Trace};
use job_keeper::keeper::NoKeeper;
use std::alloc::{AllocError, Global};
use std::marker::PhantomData;
use std::sync::atomic::{AtomicBool, Ordering};
use std::test::Fail;
use std::thread;

/// It takes any input, any reply may come, and a job is always on course.
#[derive(Drop)]
struct Toy;

impl Course for Toy {
    ghost takes = { λ _. Unit {0} };

    ghost on_course = { λ _ _ _ _ _ _. Unit {0} };

    ghost reply_ok = { λ _ _ _. Unit {0} };

    ghost begins = { λ _ _. tt };

    ghost goes_on = { λ _ _ _ _ _ _ _ _ _ _. tt };
}

#[derive(Drop)]
struct ToyHand {
    faults: u64,
}

fn text(alloc: Global, of: &str) -> Result<HogText, AllocError> {
    Ok(HogText::from_string(String::from_str(alloc, of)?))
}

impl Hand<Toy> for ToyHand {
    ghost faults = { λ h. h.faults };

    fn work(&mut self, alloc: Global, lease: &Lease<Toy>) -> Result<Advance<Toy>, AllocError> {
        let from = lease.ops;
        let to = from.checked_add(1).ok_or(AllocError)?;
        let after = if lease.replies.items().is_empty() {
            After::Fetch(Request {
                url: text(alloc, "https://h/")?,
                options: text(alloc, "null")?,
            })
        } else {
            After::Finished
        };
        Ok(Advance {
            input: lease.input.copy()?,
            replies: lease.replies.copy()?,
            from,
            to,
            saved: lease.saved.copy()?,
            shown: Shown {
                trace: Trace::new(Vec::new(alloc)),
                end: None,
            },
            after,
            course: PhantomData,
        })
    }

    fn answer(&mut self, alloc: Global, lease: &Lease<Toy>) -> Result<Answered<Toy>, AnswerStop> {
        if lease.tries < 1 {
            self.faults = self.faults.saturating_add(1);
            return Err(AnswerStop::Failed);
        }
        let reply = Reply {
            status: 200,
            body: text(alloc, "null")?,
        };
        let twin = reply.copy()?;
        Ok(Answered {
            input: lease.input.copy()?,
            replies: lease.replies.copy()?,
            from: lease.ops,
            reply,
            twin,
            course: PhantomData,
        })
    }
}

/// A queue of so many jobs.
fn queue_of(alloc: Global, jobs: u32) -> Result<QueueState<Toy, NoKeeper>, AllocError> {
    let mut queue = QueueState::new(alloc, NoKeeper);
    for _ in 0..jobs {
        let input = JobInput {
            source: text(alloc, "")?,
            globals: text(alloc, "{}")?,
            answers: Answers::Free,
        };
        if queue.enqueue(input, 0, 0).is_err() {
            return Err(AllocError);
        }
    }
    Ok(queue)
}

/// Two workers and two fetchers.
fn posts(alloc: Global) -> Result<Vec<Post<ToyHand>>, AllocError> {
    let mut posts = Vec::new(alloc);
    for number in 0..4 {
        let first = if number < 2 {
            QueueName::Hog
        } else {
            QueueName::Fetch
        };
        let hand = ToyHand { faults: 0 };
        posts.push(Post {
            number,
            first,
            hand,
        })?;
    }
    Ok(posts)
}

/// Holds the first thread that has taken a job until another has come to `Flushed`, and gives up after many turns.
#[derive(Drop)]
struct Holding {
    taken: AtomicBool,
    flushed: AtomicBool,
    gave_up: AtomicBool,
}

impl Gate for Holding {
    fn at(&self, _worker: u32, point: Point) -> Word {
        match point {
            Point::Taken => {
                if !self.taken.swap(true, Ordering::SeqCst) {
                    for _ in 0..100_000_000u32 {
                        if self.flushed.load(Ordering::SeqCst) {
                            return Word::Go;
                        }
                        thread::yield_now();
                    }
                    self.gave_up.store(true, Ordering::SeqCst);
                }
            }
            Point::Worked => {}
            Point::Flushed => self.flushed.store(true, Ordering::SeqCst),
        }
        Word::Go
    }
}

#[test]
fn each_step_is_made_once(rt: HostRuntime) -> Result<(), Fail> {
    let alloc = rt.alloc();
    let clock = ListClock::new(vec![in alloc; u64::MAX]?);
    let queue = queue_of(alloc, 20)?;
    let last = ToyHand { faults: 0 };
    let end = run_jobs(&rt, alloc, queue, posts(alloc)?, last, &clock, &Open)?;
    let totals = Totals {
        taken: 80,
        ran: 40,
        replied: 20,
        swept: 0,
        back: 20,
    };
    assert_eq!(rt; end.totals, totals);
    Ok(())
}

#[test]
fn no_lock_is_held_over_work(rt: HostRuntime) -> Result<(), Fail> {
    let alloc = rt.alloc();
    let clock = ListClock::new(vec![in alloc; u64::MAX]?);
    let queue = queue_of(alloc, 20)?;
    let last = ToyHand { faults: 0 };
    let gate = Holding {
        taken: AtomicBool::new(false),
        flushed: AtomicBool::new(false),
        gave_up: AtomicBool::new(false),
    };
    let end = run_jobs(&rt, alloc, queue, posts(alloc)?, last, &clock, &gate)?;
    assert!(rt; !gate.gave_up.load(Ordering::SeqCst));
    assert_eq!(rt; end.totals.ran, 40);
    Ok(())
}
