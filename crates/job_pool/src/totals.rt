//! How many entries of each kind a history has.

ghost use Rattle.std.specs.Prelude.{◌≡◌};
ghost use Rattle.job_pool.specs.Totals.{totals_in};

use cyclotron_jobs::entry::Entry;

/// How many takes, runs, replies, sweeps and put-backs there were.
#[derive(Clone, Copy, Debug, PartialEq, Eq)]
pub struct Totals {
    pub taken: u64,
    pub ran: u64,
    pub replied: u64,
    pub swept: u64,
    pub back: u64,
}

/// Counts a history. Takes no memory.
pub fn totals_of(history: &[Entry]) -> Totals
    ensures { result ≡ totals_in history.now }
{
    let (mut taken, mut ran, mut replied, mut swept, mut back) = (0, 0, 0, 0, 0);
    'entries: for entry in history {
        match entry {
            Entry::Queued { .. } => {}
            Entry::Taken { .. } => taken += 1,
            Entry::Beat { .. } => {}
            Entry::Ran { .. } => ran += 1,
            Entry::Replied { .. } => replied += 1,
            Entry::Swept { .. } => swept += 1,
            Entry::PutBack { .. } => back += 1,
        }
    }
    Totals {
        taken,
        ran,
        replied,
        swept,
        back,
    }
}
