//! A fetcher that answers from a job's list.

ghost use Rattle.std.specs.Prelude.{◌≡◌, IfOk};
ghost use Rattle.cyclotron_jobs.specs.Replies.{listed_reply};
ghost use Rattle.fetchers.specs.Fetchers.{reply_of};

use crate::fetcher::{FetchStop, Fetcher};
use cyclotron_jobs::input::{Answers, JobInput, Reply};
use hog_value::text::HogText;
use hog_value::trace::Request;
use std::alloc::{AllocError, Global};
use std::marker::Model;

/// Answers from a listed input, and to a free input with a copy of one reply. Each fetch fails first so often
/// as it is told.
#[derive(Drop)]
pub struct ListFetcher {
    free: Reply,
    misses: u8,
    faults: u64,
}

impl Model for ListFetcher {
    ghost use Rattle.fetchers.specs.Fetchers.{ListOf};

    ghost Value = { ListOf };

    ghost view = { λ f. record {
      free = f.free;
      misses = f.misses;
      faults = f.faults;
    } };
}

impl ListFetcher {
    /// `free` is the reply to a free input, and a fetch fails in its first `misses` tries. Takes no memory.
    pub fn new(free: Reply, misses: u8) -> ListFetcher
        ensures { result ≡ record { free = free; misses = misses; faults = 0 } }
    {
        ListFetcher {
            free,
            misses,
            faults: 0,
        }
    }
}

impl Fetcher for ListFetcher {
    ghost use Rattle.std.specs.Prelude.{Some};
    ghost use Rattle.fetchers.specs.Fetchers.{ListAnswers, reply_of};

    ghost faults = { λ f. f.faults };

    ghost told = { λ f input n. Some (reply_of input.answers n f.free) };

    ghost answers = { λ f _ _ tries answer after. ListAnswers f tries answer after };

    fn fetch(
        &mut self,
        alloc: Global,
        input: &JobInput,
        n: u32,
        tries: u8,
        _request: &Request,
    ) -> Result<Reply, FetchStop> {
        if tries < self.misses {
            self.faults = self.faults.saturating_add(1);
            return Err(FetchStop::Failed);
        }
        Ok(copy_reply_of(alloc, input, n, &self.free)?)
    }
}

/// The reply to the fetch of that number, counted from 0; `free` to a free input.
pub(crate) fn copy_reply_of(
    alloc: Global,
    input: &JobInput,
    n: u32,
    free: &Reply,
) -> Result<Reply, AllocError>
    ensures { IfOk result (λ reply. reply ≡ reply_of input.now.answers n free.now) }
{
    match &input.answers {
        Answers::Free => free.copy(),
        Answers::Listed(replies) => copy_listed(alloc, replies.items(), n),
    }
}

/// The reply of that number, or a 404 with the body `null`.
fn copy_listed(alloc: Global, replies: &[Reply], n: u32) -> Result<Reply, AllocError>
    ensures { IfOk result (λ reply. reply ≡ listed_reply replies.now n) }
{
    match replies.get(n as usize) {
        Some(reply) => reply.copy(),
        None => {
            let body = HogText::from_string(String::from_str(alloc, "null")?);
            Ok(Reply { status: 404, body })
        }
    }
}
