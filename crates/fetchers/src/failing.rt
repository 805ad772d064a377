//! A fetcher that fails at chosen calls.

use crate::fetcher::{FetchStop, Fetcher};
use crate::listed::copy_reply_of;
use cyclotron_jobs::input::{JobInput, Reply};
use hog_value::items::Numbers;
use hog_value::trace::Request;
use std::alloc::Global;
use std::marker::Model;

/// Fails at chosen calls, and else answers from a listed input, and to a free input with a copy of one reply.
#[derive(Drop)]
pub struct FailingFetcher {
    free: Reply,
    fails: Numbers,
    calls: u32,
    faults: u64,
}

impl Model for FailingFetcher {
    ghost use Rattle.fetchers.specs.Fetchers.{FailingOf};

    ghost Value = { FailingOf };

    ghost view = { λ f. record {
      free = f.free;
      fails = f.fails;
      calls = f.calls;
      faults = f.faults;
    } };
}

impl FailingFetcher {
    ghost use Rattle.std.specs.Prelude.{◌≡◌};

    /// `free` is the reply to a free input, and `fails` lists the calls that are to fail, counted from 1.
    /// Takes no memory.
    pub fn new(free: Reply, fails: Numbers) -> FailingFetcher
        ensures { result ≡ record { free = free; fails = fails; calls = 0; faults = 0 } }
    {
        FailingFetcher {
            free,
            fails,
            calls: 0,
            faults: 0,
        }
    }
}

impl Fetcher for FailingFetcher {
    ghost use Rattle.std.specs.Prelude.{Some};
    ghost use Rattle.fetchers.specs.Fetchers.{FailingAnswers, reply_of};

    ghost faults = { λ f. f.faults };

    ghost told = { λ f input n. Some (reply_of input.answers n f.free) };

    ghost answers = { λ f _ _ _ answer after. FailingAnswers f answer after };

    fn fetch(
        &mut self,
        alloc: Global,
        input: &JobInput,
        n: u32,
        _tries: u8,
        _request: &Request,
    ) -> Result<Reply, FetchStop> {
        self.calls = self.calls.saturating_add(1);
        if self.fails.items().contains(&self.calls) {
            self.faults = self.faults.saturating_add(1);
            return Err(FetchStop::Failed);
        }
        Ok(copy_reply_of(alloc, input, n, &self.free)?)
    }
}
