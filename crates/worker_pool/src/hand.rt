//! Who runs Hog jobs, and answers their requests from their lists.

ghost use Rattle.std.specs.Prelude.{◌≤◌};

use cyclotron_jobs::input::Reply;
use cyclotron_jobs::lease::{Advance, Answered, Lease};
use fetch_gate::{GateStop, answer};
use fetchers::ListFetcher;
use hog_jobs::HogCourse;
use hog_value::HogText;
use hog_worker::work;
use job_pool::{AnswerStop, Hand};
use std::alloc::{AllocError, Global};

/// Runs jobs by slices of so many operations. A request gets the reply of its job's list, or else a 404 with the body `null`.
#[derive(Drop)]
pub struct HogHand {
    slice: u32,
    fetcher: ListFetcher,
    ghost some: { 1 ≤ slice },
}

impl HogHand {
    /// `slice` is in operations; the first `misses` tries of each fetch fail.
    pub fn new(alloc: Global, slice: u32, misses: u8) -> Result<HogHand, AllocError>
        requires { 1 ≤ slice }
    {
        let body = HogText::from_string(String::from_str(alloc, "null")?);
        let free = Reply { status: 404, body };
        Ok(HogHand {
            slice,
            fetcher: ListFetcher::new(free, misses),
        })
    }
}

impl Hand<HogCourse> for HogHand {
    ghost faults = { λ h. h.fetcher.faults };

    fn work(
        &mut self,
        alloc: Global,
        lease: &Lease<HogCourse>,
    ) -> Result<Advance<HogCourse>, AllocError> {
        work(alloc, lease, self.slice)
    }

    fn answer(
        &mut self,
        alloc: Global,
        lease: &Lease<HogCourse>,
    ) -> Result<Answered<HogCourse>, AnswerStop> {
        match answer(alloc, lease, &mut self.fetcher) {
            Ok(answered) => Ok(answered),
            Err(GateStop::Failed) => Err(AnswerStop::Failed),
            Err(GateStop::OutOfMemory) => Err(AnswerStop::OutOfMemory),
        }
    }
}
