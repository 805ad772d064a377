//! Work on a lease.

ghost use Rattle.std.specs.Prelude.{◌≡◌, ℕ, ◌+◌, ◌<◌, ◌≤◌, ◌^◌, List, true, false, IfOk, OnOk, drop};
ghost use Rattle.hog_meaning.specs.World as world;
ghost use Rattle.hog_ops.specs.Plain.{Ops};
ghost use Rattle.vm_course.specs.Run.{run_for};
ghost use Rattle.vm_course.specs.Belongs.{belongs};
ghost use Rattle.hog_program.specs.Program.{HasCode};
ghost use Rattle.hog_jobs.specs.Course.{replies_of, IsRunAt, ComesNext};
ghost use Rattle.hog_jobs.specs.Inputs.{IsInput, IsGlobals};
ghost use Rattle.hog_jobs.specs.Laws.{GoesOn};
ghost use Rattle.hog_worker.specs.Steps.{IsLoaded, TakesNext, IsTakenUp};
ghost use Rattle.hog_worker.specs.Work.{IsSlice, IsWork};

use cyclotron_jobs::lease::{Advance, Lease};
use cyclotron_jobs::row::{After, QueueName};
use cyclotron_jobs::{JobInput, Replies};
use hog_jobs::HogCourse;
use hog_jobs::laws::{
    few_operations, hog_goes_on, kept_globals, runs_begin, runs_go_on, runs_take_replies,
};
use hog_program::laws::{built_or_unbuilt, one_whole};
use hog_program::{BuildStop, Program};
use hog_value::HogText;
use hog_value::items::Bytes;
use hogvm::{StartStop, Steps};
use std::alloc::{AllocError, Global};
use std::marker::PhantomData;
use vm_course::laws::slices_on_course;
use vm_operations::Machine;
use vm_state::laws::runs_are_machines;
use vm_state::{StateStop, load, save};

/// A slice of work on a lease. Where nothing was committed the machine is started, else it is loaded from the saved text; it
/// takes in the reply that it waits for, and goes on until `slice` operations are done, it waits, or it has ended. The start
/// and taking in a reply are an operation each.
pub fn work(
    alloc: Global,
    lease: &Lease<HogCourse>,
    slice: u32,
) -> Result<Advance<HogCourse>, AllocError>
    requires some { 1 ≤ slice }
    requires on_hog { lease.now.queue ≡ QueueName.Hog }
    ensures { IfOk result (IsWork lease.now slice) }
{
    runs_go_on();
    slices_on_course();
    let program = program_of(alloc, &lease.input)?;
    let mut machine = taken_up(alloc, &program, lease)?;
    let done = machine.ops() - lease.ops;
    run_on(alloc, &program, &mut machine, slice - done as u32)?;
    advanced(alloc, lease, &program, machine)
}

/// The program of an input that the course takes.
fn program_of(alloc: Global, input: &JobInput) -> Result<Program, AllocError>
    requires { IsInput input.now }
    ensures { IfOk result (λ p. HasCode input.now.source p.code) }
{
    built_or_unbuilt();
    match Program::build(alloc, input.source.bytes()) {
        Ok(program) => Ok(program),
        Err(stop) => match stop {
            BuildStop::OutOfMemory => Err(AllocError),
            _ => unreachable!(),
        },
    }
}

/// The machine of a program on right globals, behind its first operation.
fn started(alloc: Global, program: &Program, globals: &HogText) -> Result<Machine, AllocError>
    requires { IsGlobals globals.now }
    ensures up { (replies : List world.Reply) → IfOk result (λ m. IsTakenUp program.now.code globals.now replies 0 m.run) }
    ensures fresh { IfOk result (λ m. m.spent ≡ false) }
{
    kept_globals();
    runs_begin();
    match program.start(alloc, globals) {
        Ok(machine) => Ok(machine),
        Err(stop) => match stop {
            StartStop::OutOfMemory => Err(AllocError),
            StartStop::NotAnObject => unreachable!(),
        },
    }
}

/// The machine of a lease of which operations are committed.
fn loaded(alloc: Global, program: &Program, lease: &Lease<HogCourse>) -> Result<Machine, AllocError>
    requires source { HasCode lease.now.input.source program.now.code }
    requires on_hog { lease.now.queue ≡ QueueName.Hog }
    requires committed { 1 ≤ lease.now.ops }
    ensures loaded { IfOk result
        (λ m. IsLoaded program.now.code lease.now.input.globals (replies_of lease.now.replies) lease.now.ops m.run) }
    ensures fresh { IfOk result (λ m. m.spent ≡ false) }
{
    one_whole();
    few_operations();
    hog_goes_on();
    let code = program.code();
    let _ops = code.ops();
    match load(alloc, code, lease.saved.items()) {
        Ok(machine) => Ok(machine),
        Err(stop) => match stop {
            StateStop::OutOfMemory => Err(AllocError),
            _ => unreachable!(),
        },
    }
}

/// The machine, with the next of the replies taken in where it waits. That reply is there.
fn with_reply(alloc: Global, mut machine: Machine, replies: &Replies) -> Result<Machine, AllocError>
    requires fresh { machine.spent ≡ false }
    requires counted { machine.run.ops < 2 ^ 63 }
    requires goes_on { GoesOn machine.run.state.mode (replies_of replies.now) machine.run.used }
    ensures takes { IfOk result (λ m. TakesNext (replies_of replies.now) machine.run m.run) }
    ensures belongs { (code : Ops) → belongs code machine.run ≡ true → IfOk result (λ m. belongs code m.run ≡ true) }
    ensures fresh { IfOk result (λ m. m.spent ≡ false) }
{
    if !machine.is_waiting() {
        return Ok(machine);
    }
    match replies.items().get(machine.used() as usize) {
        Some(reply) => {
            machine.resume(alloc, reply)?;
            Ok(machine)
        }
        None => unreachable!(),
    }
}

/// The machine of a lease. Its first operation of the slice is done where that is the start or taking in a reply.
fn taken_up(
    alloc: Global,
    program: &Program,
    lease: &Lease<HogCourse>,
) -> Result<Machine, AllocError>
    requires source { HasCode lease.now.input.source program.now.code }
    requires on_hog { lease.now.queue ≡ QueueName.Hog }
    ensures up { IfOk result
        (λ m. IsTakenUp program.now.code lease.now.input.globals (replies_of lease.now.replies) lease.now.ops m.run) }
    ensures fresh { IfOk result (λ m. m.spent ≡ false) }
{
    if lease.ops == 0 {
        return started(alloc, program, &lease.input.globals);
    }
    runs_take_replies();
    let machine = loaded(alloc, program, lease)?;
    with_reply(alloc, machine, &lease.replies)
}

/// So many operations more, or fewer where the machine waits or ends.
fn run_on(
    alloc: Global,
    program: &Program,
    machine: &mut Machine,
    left: u32,
) -> Result<(), AllocError>
    requires fresh { machine.old.spent ≡ false }
    requires belongs { belongs program.now.code machine.old.run ≡ true }
    requires counted { machine.old.run.ops + left < 2 ^ 64 }
    ensures ran { OnOk result (machine.new.run ≡ run_for program.now.code left machine.old.run) }
    ensures fresh { OnOk result (machine.new.spent ≡ false) }
{
    if left == 0 {
        return Ok(());
    }
    program.go(alloc, machine, left)?;
    Ok(())
}

/// What comes next for a machine: it has ended, or it waits for a reply that isn't there yet, or more operations come.
fn next_after(machine: &Machine, replies: &Replies) -> Result<After, AllocError>
    requires fresh { machine.now.spent ≡ false }
    ensures { IfOk result
        (ComesNext machine.now.run.state.mode (drop machine.now.run.used (replies_of replies.now)) machine.now.run.state.trace) }
{
    if machine.has_ended() {
        return Ok(After::Finished);
    }
    if machine.used() < replies.items().len() as u64 {
        return Ok(After::Hog);
    }
    match machine.waits() {
        Some(request) => Ok(After::Fetch(request.copy()?)),
        None => Ok(After::Hog),
    }
}

/// The run of a lease that has led to a machine.
fn advanced(
    alloc: Global,
    lease: &Lease<HogCourse>,
    program: &Program,
    machine: Machine,
) -> Result<Advance<HogCourse>, AllocError>
    requires source { HasCode lease.now.input.source program.now.code }
    requires fresh { machine.spent ≡ false }
    requires above { lease.now.ops < machine.run.ops }
    requires at { IsRunAt program.now.code lease.now.input.globals (replies_of lease.now.replies) machine.run.ops machine.run }
    ensures { (slice : ℕ)
        → IsSlice program.now.code lease.now.input.globals (replies_of lease.now.replies) slice lease.now.ops machine.run.ops
        → IfOk result (IsWork lease.now slice) }
{
    kept_globals();
    runs_are_machines();
    let _ops = program.code().ops();
    let saved = Bytes::new(save(alloc, &machine)?);
    let after = next_after(&machine, &lease.replies)?;
    let to = machine.ops();
    Ok(Advance {
        input: lease.input.copy()?,
        replies: lease.replies.copy()?,
        from: lease.ops,
        to,
        saved,
        shown: machine.into_shown(),
        after,
        course: PhantomData,
    })
}
