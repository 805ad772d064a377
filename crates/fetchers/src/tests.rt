//! Each fetcher gets a reply.

use crate::failing::FailingFetcher;
use crate::fetcher::Fetcher;
use crate::listed::ListFetcher;
use cyclotron_jobs::input::{Answers, JobInput, Replies, Reply};
use hog_value::items::Numbers;
use hog_value::text::HogText;
use hog_value::trace::Request;
use std::alloc::{AllocError, Global};
use std::test::Fail;

fn text(alloc: Global, of: &str) -> Result<HogText, AllocError> {
    Ok(HogText::from_string(String::from_str(alloc, of)?))
}

/// The reply that a fetcher gives to free inputs.
fn free(alloc: Global) -> Result<Reply, AllocError> {
    let body = text(alloc, "{}")?;
    Ok(Reply { status: 201, body })
}

/// The status of the reply to the first request of a job; 0 where the fetch failed.
fn status<F: Fetcher>(alloc: Global, fetcher: &mut F, answers: Answers) -> Result<u16, AllocError> {
    let input = JobInput {
        source: text(alloc, "")?,
        globals: text(alloc, "{}")?,
        answers,
    };
    let request = Request {
        url: text(alloc, "https://h/")?,
        options: text(alloc, "null")?,
    };
    match fetcher.fetch(alloc, &input, 0, 0, &request) {
        Ok(reply) => Ok(reply.status),
        Err(_) => Ok(0),
    }
}

#[test]
fn requests_are_answered(rt: HostRuntime) -> Result<(), Fail> {
    let alloc = rt.alloc();
    let mut lists = ListFetcher::new(free(alloc)?, 0);
    let none = Answers::Listed(Replies::new(Vec::new(alloc)));
    assert_eq!(rt; status(alloc, &mut lists, none), Ok(404));
    let mut failing = FailingFetcher::new(free(alloc)?, Numbers::new(Vec::new(alloc)));
    assert_eq!(rt; status(alloc, &mut failing, Answers::Free), Ok(201));
    Ok(())
}
