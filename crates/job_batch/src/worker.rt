//! The worker of a batch.

use cyclotron_jobs::Reply;
use cyclotron_jobs::lease::{Advance, Answered, Lease};
use fetch_gate::GateStop;
use fetchers::ListFetcher;
use hog_jobs::HogCourse;
use hog_value::HogText;
use job_lines::laws::few_replies;
use queue_drain::Worker;
use std::alloc::{AllocError, Global};

/// How many operations a job runs before the next job has its turn.
const SLICE: u32 = 1_000;

/// Runs jobs in slices of 1,000 operations, and answers their requests from their lists.
#[derive(Drop)]
pub struct ListWorker;

impl Worker<HogCourse> for ListWorker {
    ghost use Rattle.hog_meaning.specs.Meaning.{most_requests};

    ghost most_replies = { most_requests };

    fn work(
        &mut self,
        alloc: Global,
        lease: &Lease<HogCourse>,
    ) -> Result<Advance<HogCourse>, AllocError> {
        hog_worker::work(alloc, lease, SLICE)
    }

    fn answer(
        &mut self,
        alloc: Global,
        lease: &Lease<HogCourse>,
    ) -> Result<Answered<HogCourse>, AllocError> {
        few_replies();
        let _asks = &lease.asks;
        let mut fetcher = ListFetcher::new(not_found(alloc)?, 0);
        match fetch_gate::answer(alloc, lease, &mut fetcher) {
            Ok(answered) => Ok(answered),
            Err(GateStop::OutOfMemory) => Err(AllocError),
            Err(GateStop::Failed) => unreachable!(),
        }
    }
}

/// The reply to a request that no list answers.
fn not_found(alloc: Global) -> Result<Reply, AllocError> {
    let body = HogText::from_string(String::from_str(alloc, "null")?);
    Ok(Reply { status: 404, body })
}
