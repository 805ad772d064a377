//! What the program answers.

ghost use Rattle.std.specs.Prelude.{◌≡◌, None};

use cyclotron_core::QueueState;
use hog_jobs::HogCourse;
use job_keeper::Keeper;

/// What the program answers: its status, and the queue that it worked on, where it is done with a script or a made plan, or where
/// the keeper failed.
#[derive(Drop)]
pub struct Answer<K: Keeper> {
    pub status: u8,
    pub closed: Option<Closed<K>>,
}

/// A queue at its end, with its whole history.
#[derive(Drop)]
pub struct Closed<K: Keeper> {
    pub jobs: QueueState<HogCourse, K>,
}

/// An answer of a status without a queue.
pub(crate) fn ended<K: Keeper>(status: u8) -> Answer<K>
    ensures { result ≡ record { status = status; closed = None } }
{
    Answer {
        status,
        closed: None,
    }
}
