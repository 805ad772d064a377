//! The answer to a leased job's request.

ghost use Rattle.std.specs.Prelude.{◌≡◌, ◌≤◌, length, IfOk};
ghost use Rattle.hog_outside.specs.Faults.{Rose};
ghost use Rattle.cyclotron_jobs.specs.Replies.{AllowsReply};
ghost use Rattle.fetchers.specs.Fetchers.{IsOwn, TellsSame};

use cyclotron_jobs::lease::{Answered, Lease};
use cyclotron_jobs::row::QueueName;
use fetchers::{FetchStop, Fetcher};
use hog_jobs::HogCourse;
use std::alloc::{AllocError, Global};
use std::marker::PhantomData;

/// Why a request is not answered.
#[derive(Clone, Copy, Debug, PartialEq, Eq)]
pub enum GateStop {
    /// The fetcher failed.
    Failed,
    OutOfMemory,
}

impl From<AllocError> for GateStop {
    ghost use Rattle.std.specs.Prelude.{◌≡◌};
    ghost use Rattle.fetch_gate.specs.declared.gate.GateStop.TheVariants.{OutOfMemory};

    ghost from_gives = { λ _ e. e ≡ OutOfMemory };

    fn from(_want: AllocError) -> GateStop {
        GateStop::OutOfMemory
    }
}

impl From<FetchStop> for GateStop {
    ghost use Rattle.std.specs.Prelude.{◌≡◌};
    ghost use Rattle.fetch_gate.specs.Stops.{stop_of};

    ghost from_gives = { λ stop e. e ≡ stop_of stop };

    fn from(stop: FetchStop) -> GateStop {
        match stop {
            FetchStop::Failed => GateStop::Failed,
            FetchStop::OutOfMemory => GateStop::OutOfMemory,
        }
    }
}

/// Answers the request of a job that is leased from the queue of fetches, with a reply that the fetcher gets. It asks for
/// the fetch whose number is the count of the replies before it, and says how often the job was given back. A job that has
/// 2^32 replies or more is past memory.
pub fn answer<F: Fetcher>(
    alloc: Global,
    lease: &Lease<HogCourse>,
    fetcher: &mut F,
) -> Result<Answered<HogCourse>, GateStop>
    requires { lease.now.queue ≡ QueueName.Fetch }
    ensures input { IfOk result (λ a. a.input ≡ lease.now.input) }
    ensures replies { IfOk result (λ a. a.replies ≡ lease.now.replies) }
    ensures from { IfOk result (λ a. a.from ≡ lease.now.ops) }
    ensures allowed { IfOk result (λ a. AllowsReply lease.now.input (length lease.now.replies) a.reply) }
    ensures own { IfOk result (λ a. IsOwn (F.told fetcher.old lease.now.input (length lease.now.replies)) a.reply) }
    ensures failed { result ≡ Err GateStop.Failed → Rose (F.faults fetcher.old) (F.faults fetcher.new) }
    ensures count { F.faults fetcher.old ≤ F.faults fetcher.new }
    ensures same { TellsSame (F.told fetcher.old) (F.told fetcher.new) }

    // The fetcher was asked for just this fetch, at the lease's tries.
    ensures answered { IfOk result (λ a. F.answers fetcher.old lease.now.input (length lease.now.replies)
        lease.now.tries (Ok a.reply) fetcher.new) }
    ensures missed { result ≡ Err GateStop.Failed → F.answers fetcher.old lease.now.input (length lease.now.replies)
        lease.now.tries (Err FetchStop.Failed) fetcher.new }
{
    let Some(request) = &lease.asks else {
        unreachable!()
    };
    let Ok(n) = u32::try_from(lease.replies.items().len()) else {
        return Err(GateStop::OutOfMemory);
    };
    let input = lease.input.copy()?;
    let replies = lease.replies.copy()?;
    let reply = fetcher.fetch(alloc, &lease.input, n, lease.tries, request)?;
    let twin = reply.copy()?;
    Ok(Answered {
        input,
        replies,
        from: lease.ops,
        reply,
        twin,
        course: PhantomData,
    })
}
