//! A keeper in memory, which fails at chosen calls.

ghost use Rattle.std.specs.Prelude.{MatchOption};
ghost use Rattle.job_keeper.specs.Memory.{HasNone, IsFirstOf};

use crate::keeper::{KeepStop, Keeper};
use cyclotron_jobs::row::Row;
use hog_value::items::Numbers;
use std::alloc::Global;
use std::marker::Model;

/// Holds rows in memory.
#[derive(Drop)]
pub struct MemKeeper {
    rows: Vec<Row>,
    fails: Numbers,
    calls: u32,
    faults: u64,
}

impl Model for MemKeeper {
    ghost use Rattle.job_keeper.specs.Memory.{MemoryOf};

    ghost Value = { MemoryOf };

    ghost view = { λ k. record {
      rows = k.rows.items;
      fails = k.fails;
      calls = k.calls;
      faults = k.faults;
    } };
}

impl MemKeeper {
    ghost use Rattle.std.specs.Prelude.{◌≡◌, []};

    /// `fails` lists the calls that are to fail, counted from 1. Takes no memory.
    pub fn new(alloc: Global, fails: Numbers) -> MemKeeper
        ensures { result ≡ record { rows = []; fails = fails; calls = 0; faults = 0 } }
    {
        MemKeeper {
            rows: Vec::new(alloc),
            fails,
            calls: 0,
            faults: 0,
        }
    }
}

impl Keeper for MemKeeper {
    ghost use Rattle.std.specs.Prelude.{◌≡◌, ◌≢◌, ◌≤◌, ◌↔◌, ℕ, Bool, true, false, IsOk, OnOk, OnErr, Contains};
    ghost use Rattle.hog_outside.specs.Faults.{Rose, next_call, next_fault};
    ghost use Rattle.job_keeper.specs.Held.{PutsRow, SameRows};
    ghost use Rattle.job_keeper.specs.Memory.{row_of};

    ghost faults = { λ k. k.faults };

    ghost tells = { true };

    ghost held = { λ k. row_of k.rows };

    ghost sure = { false };

    fn put(&mut self, row: &Row) -> Result<(), KeepStop>
        ensures ok { OnOk result (PutsRow true (row_of self.old.rows) (row_of self.new.rows) row.now) }
        ensures err { OnErr result (SameRows true (row_of self.old.rows) (row_of self.new.rows)) }
        ensures failed { result ≡ Err KeepStop.Failed → Rose self.old.faults self.new.faults }
        ensures count { self.old.faults ≤ self.new.faults }

        // It fails at the calls of its list, and its count rises then alone.
        ensures chosen { (result ≡ Err KeepStop.Failed) ↔ Contains self.old.fails (next_call self.old.calls) }
        ensures rises { result ≡ Err KeepStop.Failed → self.new.faults ≡ next_fault self.old.faults }
        ensures still { result ≢ Err KeepStop.Failed → self.new.faults ≡ self.old.faults }
        ensures calls { self.new.calls ≡ next_call self.old.calls }
        ensures fails { self.new.fails ≡ self.old.fails }
    {
        self.calls = self.calls.saturating_add(1);
        if self.fails.items().contains(&self.calls) {
            self.faults = self.faults.saturating_add(1);
            return Err(KeepStop::Failed);
        }
        let Ok(copy) = row.copy() else {
            return Err(KeepStop::OutOfMemory);
        };
        match place_of(self.rows.as_slice(), row.job) {
            Some(at) => {
                self.rows[at] = copy;
                Ok(())
            }
            None => {
                if self.rows.reserve(1).is_err() {
                    return Err(KeepStop::OutOfMemory);
                }
                self.rows.push_reserved(copy);
                Ok(())
            }
        }
    }
}

/// Where the row of a job stands.
fn place_of(rows: &[Row], job: u32) -> Option<usize>
    ensures { MatchOption result (HasNone rows.now job) (IsFirstOf rows.now job) }
{
    for i in 0..rows.len() {
        if rows[i].job == job {
            return Some(i);
        }
    }
    None
}
