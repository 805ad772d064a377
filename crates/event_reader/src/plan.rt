//! What a plan is.

use cyclotron_jobs::JobInput;
use hog_value::HogText;
use std::marker::Model;

/// A job of a plan: the places of its event and of its function, counted from 0, the uuid of the event with hyphens and in
/// lower case, the name of the function, and what the job begins with.
#[derive(Drop)]
pub struct PlanJob {
    pub event: u32,
    pub function: u32,
    pub priority: i16,
    pub uuid: HogText,
    pub name: HogText,
    pub input: JobInput,
}

/// A run of a filter that broke: the places of its event and of its function, counted from 0, and the line of its end.
#[derive(Drop)]
pub struct BrokenRun {
    pub event: u32,
    pub function: u32,
    pub line: HogText,
}

/// Jobs in order. Contracts see the list.
#[derive(Drop)]
pub struct PlanJobs {
    items: Vec<PlanJob>,
}

impl Model for PlanJobs {
    ghost use Rattle.std.specs.Prelude.{List};
    ghost use Rattle.event_reader.specs.declared.plan.PlanJob.{PlanJob};

    ghost Value = { List PlanJob };

    ghost view = { λ j. j.items.items };
}

impl PlanJobs {
    ghost use Rattle.std.specs.Prelude.{◌≡◌};

    /// Takes no memory.
    pub fn new(items: Vec<PlanJob>) -> PlanJobs
        ensures { result ≡ items.items }
    {
        PlanJobs { items }
    }

    /// Takes no memory.
    pub fn items(&self) -> &[PlanJob]
        ensures { result.now ≡ self.now }
    {
        self.items.as_slice()
    }

    /// Takes no memory.
    pub fn into_items(self) -> Vec<PlanJob>
        ensures { result.items ≡ self }
    {
        self.items
    }
}

/// Broken runs in order. Contracts see the list.
#[derive(Drop)]
pub struct BrokenRuns {
    items: Vec<BrokenRun>,
}

impl Model for BrokenRuns {
    ghost use Rattle.std.specs.Prelude.{List};
    ghost use Rattle.event_reader.specs.declared.plan.BrokenRun.{BrokenRun};

    ghost Value = { List BrokenRun };

    ghost view = { λ r. r.items.items };
}

impl BrokenRuns {
    ghost use Rattle.std.specs.Prelude.{◌≡◌};

    /// Takes no memory.
    pub fn new(items: Vec<BrokenRun>) -> BrokenRuns
        ensures { result ≡ items.items }
    {
        BrokenRuns { items }
    }

    /// Takes no memory.
    pub fn items(&self) -> &[BrokenRun]
        ensures { result.now ≡ self.now }
    {
        self.items.as_slice()
    }
}

/// A plan: its jobs and its broken runs, both by event and then by function, how many events and functions it has, and how
/// many numbers became null in its events and in the inputs of its functions.
#[derive(Drop)]
pub struct Plan {
    pub jobs: PlanJobs,
    pub broken: BrokenRuns,
    pub events: u32,
    pub functions: u32,
    pub nulled: u32,
}
