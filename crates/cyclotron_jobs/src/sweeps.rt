//! The sweeps of a job.

ghost use Rattle.std.specs.Prelude.{◌≡◌, ◌-◌, ◌<◌, ◌≤◌, ◌++◌, ◌∷◌, [], length, take};

use std::marker::Model;

/// The sweeps of a job in order, each as the moment of the sweep and the job's last beat, in milliseconds.
/// There are at most three. Contracts see the list.
#[derive(Drop)]
pub struct Sweeps {
    pairs: [(u64, u64); 3],
    count: usize,
}

impl Model for Sweeps {
    ghost use Rattle.std.specs.Prelude.{List, ℕ, ◌≡◌, ◌≤◌, take, length};

    ghost Value = { List (ℕ × ℕ) };

    ghost view = { λ s. take s.count s.pairs };

    ghost invariant = { λ s. (s.count ≤ 3) × (length s.pairs ≡ 3) };
}

impl Sweeps {
    pub fn new() -> Sweeps
        ensures { result ≡ [] }
    {
        Sweeps {
            pairs: [(0, 0); 3],
            count: 0,
        }
    }

    pub fn len(&self) -> usize
        ensures length { result ≡ length self.now }
        ensures few { result ≤ 3 }
    {
        self.count
    }

    pub fn items(&self) -> &[(u64, u64)]
        ensures { result.now ≡ self.now }
    {
        &self.pairs[..self.count]
    }

    pub fn copy(&self) -> Sweeps
        ensures { result ≡ self.now }
    {
        Sweeps {
            pairs: self.pairs,
            count: self.count,
        }
    }

    /// Adds a sweep at the end: its moment, and the job's last beat.
    pub fn push(&mut self, now: u64, beat: u64)
        requires { length self.old < 3 }
        ensures { self.new ≡ self.old ++ (now, beat) ∷ [] }
    {
        self.pairs[self.count] = (now, beat);
        self.count += 1;
    }

    /// Takes the last sweep away.
    pub fn pop(&mut self)
        requires { 0 < length self.old }
        ensures { self.new ≡ take (length self.old - 1) self.old }
    {
        self.count -= 1;
    }
}
