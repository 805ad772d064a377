//! Where a thread of a pool asks whether it may go on.

/// The points of a lease: it is taken, the work on it is done, and that is flushed.
#[derive(Clone, Copy, Debug, PartialEq, Eq)]
pub enum Point {
    Taken,
    Worked,
    Flushed,
}

/// Whether a thread goes on, or drops its lease and ends.
#[derive(Clone, Copy, Debug, PartialEq, Eq)]
pub enum Word {
    Go,
    Lose,
}

/// Is asked by each thread, outside the lock, at each point. It may hold the thread.
pub trait Gate {
    fn at(&self, worker: u32, point: Point) -> Word;
}

/// Always says Go.
#[derive(Clone, Copy, Debug, PartialEq, Eq)]
pub struct Open;

impl Gate for Open {
    fn at(&self, _worker: u32, _point: Point) -> Word {
        Word::Go
    }
}
