//! The trait of fetchers.

use cyclotron_jobs::input::{JobInput, Reply};
use hog_value::trace::Request;
use std::alloc::{AllocError, Global};

/// Why a fetch got no reply.
#[derive(Clone, Copy, Debug, PartialEq, Eq)]
pub enum FetchStop {
    Failed,
    OutOfMemory,
}

impl From<AllocError> for FetchStop {
    ghost use Rattle.std.specs.Prelude.{◌≡◌};
    ghost use Rattle.fetchers.specs.declared.fetcher.FetchStop.TheVariants.{OutOfMemory};

    ghost from_gives = { λ _ stop. stop ≡ OutOfMemory };

    fn from(_want: AllocError) -> FetchStop {
        FetchStop::OutOfMemory
    }
}

/// Gets the replies to requests.
pub trait Fetcher {
    ghost use Rattle.std.specs.Prelude.{ℕ, ◌≡◌, ◌≤◌, Option, Some, Result, IfOk};
    ghost use Rattle.hog_outside.specs.Faults.{Rose};
    ghost use Rattle.cyclotron_jobs.specs.declared.input.JobInput.{JobInput};
    ghost use Rattle.cyclotron_jobs.specs.declared.input.Reply.{Reply};
    ghost use Rattle.cyclotron_jobs.specs.Replies.{AllowsReply};
    ghost use Rattle.fetchers.specs.declared.fetcher.FetchStop.{FetchStop};
    ghost use Rattle.fetchers.specs.Fetchers.{IsOwn, TellsSame};

    /// How many calls failed. It never falls, and stands still at its greatest.
    ghost faults: { Self → ℕ };

    /// The one reply that it gives to the fetch of that number of a job with this input, where it tells it.
    ghost told: { Self → JobInput → ℕ → Option Reply };

    /// What a call may answer: the fetcher before it, the job's input, which of the job's fetches it is, how often the job
    /// was given back, the answer, and the fetcher after it.
    ghost answers: { Self → JobInput → ℕ → ℕ → Result Reply FetchStop → Self → Type 0 };

    /// Gets the reply to the request of a job with this input. It is the job's fetch number `n`, counted from 0,
    /// and was given back `tries` times; 255 where it was more.
    fn fetch(
        &mut self,
        alloc: Global,
        input: &JobInput,
        n: u32,
        tries: u8,
        request: &Request,
    ) -> Result<Reply, FetchStop>
        ensures allowed { IfOk result (λ reply. AllowsReply input.now n reply) }
        ensures own { IfOk result (λ reply. IsOwn (told self.old input.now n) reply) }
        ensures failed { result ≡ Err FetchStop.Failed → Rose (faults self.old) (faults self.new) }
        ensures count { faults self.old ≤ faults self.new }
        ensures same { TellsSame (told self.old) (told self.new) }
        ensures answers { answers self.old input.now n tries result self.new };
}
