//! Jobs and broken runs as they are gathered.

ghost use Rattle.std.specs.Prelude.{◌≡◌, ◌<◌, ◌^◌, [], ◌∷◌, IfOk, length, option_and_then};
ghost use Rattle.event_destinations.specs.Seen.{of_destinations};
ghost use Rattle.event_plans.specs.Drafts.{data_of, datas_of, function_of};
ghost use Rattle.event_reader.specs.Gathering.{Adds, AddsRow, GathersAll, HasGathered, MakesInput, keeps, left};
ghost use Rattle.event_reader.specs.Plans.{IsTaken, bodies_size, broken_in, input_size, job_in};

use crate::meeting::{Meeting, meet};
use crate::plan::{BrokenRun, PlanJob};
use cyclotron_jobs::{Answers, JobInput, Reply};
use event_destinations::Destination;
use event_plans::{Event, Function};
use std::alloc::{AllocError, Global};

/// The most jobs of a plan.
const MOST_JOBS: usize = 16_384;

/// The most bytes of the inputs of all jobs of a plan.
const MOST_BYTES: usize = 268_435_456;

/// The jobs and the broken runs so far. None are kept once the jobs are too many or their inputs too large.
#[derive(Drop)]
pub(crate) struct Gathered {
    pub(crate) jobs: Vec<PlanJob>,
    pub(crate) broken: Vec<BrokenRun>,
    /// How many more jobs there may be, if they aren't too many.
    pub(crate) places: Option<usize>,
    /// How many more bytes the inputs of the jobs may have, if they aren't too large.
    pub(crate) room: Option<usize>,
}

/// What is left of room behind the bodies of replies, if it is enough.
fn room_behind_bodies(room: usize, replies: &[Reply]) -> Option<usize>
    ensures { result ≡ left room (bodies_size replies.now) }
{
    let mut rest = room;
    for reply in replies {
        rest = rest.checked_sub(reply.body.bytes().len())?;
    }
    Some(rest)
}

/// What is left of room behind an input, if it is enough.
fn room_behind(room: Option<usize>, input: &JobInput) -> Option<usize>
    ensures { result ≡ option_and_then (λ n. left n (input_size input.now)) room }
{
    let rest = room?.checked_sub(input.source.bytes().len())?;
    let rest = rest.checked_sub(input.globals.bytes().len())?;
    match &input.answers {
        Answers::Free => Some(rest),
        Answers::Listed(replies) => room_behind_bodies(rest, replies.items()),
    }
}

/// What is left of places behind one job, if there is one.
fn places_behind(places: Option<usize>) -> Option<usize>
    ensures { result ≡ option_and_then (λ n. left n 1) places }
{
    places?.checked_sub(1)
}

impl Gathered {
    fn new(alloc: Global) -> Gathered
        ensures { HasGathered [] [] result }
    {
        Gathered {
            jobs: Vec::new(alloc),
            broken: Vec::new(alloc),
            places: Some(MOST_JOBS),
            room: Some(MOST_BYTES),
        }
    }

    /// Whether jobs and broken runs are still kept.
    fn keeps(&self) -> bool
        ensures { result ≡ keeps self.now }
    {
        self.places.is_some() && self.room.is_some()
    }

    /// With one more job.
    fn with_job(mut self, job: PlanJob) -> Result<Gathered, AllocError>
        requires { IsTaken job }
        ensures { IfOk result (Adds (job ∷ []) [] self) }
    {
        self.places = places_behind(self.places);
        self.room = room_behind(self.room, &job.input);
        if !self.keeps() {
            return Ok(self);
        }
        self.jobs.push(job)?;
        Ok(self)
    }

    /// With one more broken run.
    fn with_broken(mut self, run: BrokenRun) -> Result<Gathered, AllocError>
        ensures { IfOk result (Adds [] (run ∷ []) self) }
    {
        if !self.keeps() {
            return Ok(self);
        }
        self.broken.push(run)?;
        Ok(self)
    }

    /// With what comes of an event that meets a function, by their places.
    fn with_meeting(
        self,
        event_place: u32,
        event: &Event,
        function_place: u32,
        function: &Function,
        meeting: Meeting,
    ) -> Result<Gathered, AllocError>
        requires { MakesInput meeting }
        ensures { IfOk result (Adds
            (job_in event_place (data_of event.now) function_place (function_of function.now) meeting)
            (broken_in event_place (data_of event.now) function_place (function_of function.now) meeting) self) }
    {
        match meeting {
            Meeting::Skipped => Ok(self),
            Meeting::Job(input) => self.with_job(PlanJob {
                event: event_place,
                function: function_place,
                priority: function.priority,
                uuid: event.uuid.copy()?,
                name: function.name.copy()?,
                input,
            }),
            Meeting::Broken(line) => self.with_broken(BrokenRun {
                event: event_place,
                function: function_place,
                line,
            }),
        }
    }

    /// With what comes of an event that meets all destinations in order.
    fn with_event(
        self,
        alloc: Global,
        place: u32,
        event: &Event,
        destinations: &[Destination],
    ) -> Result<Gathered, AllocError>
        requires { length destinations.now < 2 ^ 32 }
        ensures { IfOk result
            (AddsRow place (data_of event.now) (of_destinations destinations.now) self) }
    {
        let mut gathered = self;
        for (n, destination) in destinations.iter().enumerate() {
            let meeting = meet(alloc, event, destination)?;
            gathered = gathered.with_meeting(
                place,
                event,
                n as u32,
                &destination.function,
                meeting,
            )?;
        }
        Ok(gathered)
    }
}

/// What comes of events that meet destinations, each event in turn each destination in turn.
pub(crate) fn gather_all(
    alloc: Global,
    events: &[Event],
    destinations: &[Destination],
) -> Result<Gathered, AllocError>
    requires events { length events.now < 2 ^ 32 }
    requires destinations { length destinations.now < 2 ^ 32 }
    ensures { IfOk result (GathersAll (datas_of events.now) (of_destinations destinations.now)) }
{
    let mut gathered = Gathered::new(alloc);
    for (e, event) in events.iter().enumerate() {
        gathered = gathered.with_event(alloc, e as u32, event, destinations)?;
    }
    Ok(gathered)
}
