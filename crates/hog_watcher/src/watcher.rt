//! The watcher.

ghost use Rattle.std.specs.Prelude.{◌≡◌, ◌+◌, ◌<◌, ◌^◌, length, slice_get, Some, IfOk};
ghost use Rattle.cyclotron_jobs.specs.declared.row.JobState.{JobState};
ghost use Rattle.hog_watcher.specs.Costs.{cost_of, health_of};
ghost use Rattle.hog_watcher.specs.Watched.{fresh, noted, spent_at};

use crate::cost::{Health, cost_of, health_of};
use cyclotron_jobs::row::{JobState, Row};
use std::alloc::{AllocError, Global};
use std::marker::Model;

/// What the jobs of each destination have cost. Contracts see the costs, and how many jobs were noted.
#[derive(Drop)]
pub struct Watcher {
    spent: Vec<u128>,
    notes: u32,
}

impl Model for Watcher {
    ghost use Rattle.hog_watcher.specs.Watched.{AreSmall, WatcherOf};

    ghost Value = { WatcherOf };

    ghost view = { λ w. record { spent = w.spent.items; notes = w.notes } };

    ghost invariant = { λ w. AreSmall w.notes w.spent.items };
}

impl Watcher {
    /// A watcher of so many destinations, of which none has cost anything.
    pub fn new(alloc: Global, functions: u32) -> Result<Watcher, AllocError>
        ensures { IfOk result (λ w. w ≡ fresh functions) }
    {
        Ok(Watcher {
            spent: vec![in alloc; 0u128; functions as usize]?,
            notes: 0,
        })
    }

    /// Notes what a completed job of a destination has cost. Takes no memory.
    pub fn note(&mut self, function: u32, row: &Row)
        requires there { function < length self.old.spent }
        requires completed { row.now.state ≡ JobState.Completed }
        requires few { self.old.notes + 1 < 2 ^ 32 }
        ensures { self.new ≡ noted self.old function row.now }
    {
        self.spent[function as usize] += cost_of(row);
        self.notes += 1;
    }

    /// What the jobs of a destination have cost. Takes no memory.
    pub fn spent(&self, function: u32) -> u128
        requires { function < length self.now.spent }
        ensures { result ≡ spent_at self.now function }
    {
        self.spent[function as usize]
    }

    /// How a destination does. Takes no memory.
    pub fn health(&self, function: u32) -> Health
        requires { function < length self.now.spent }
        ensures { result ≡ health_of (spent_at self.now function) }
    {
        health_of(self.spent(function))
    }
}
