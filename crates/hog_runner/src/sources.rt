//! The commands that read a Hog source.

ghost use Rattle.std.specs.Prelude.{◌≡◌, ◌≤◌, [], IfOk, codes};
ghost use Rattle.hog_tree.specs.Nesting.{deepest, stms_nesting};
ghost use Rattle.hog_tree.specs.View.{tree_of};
ghost use Rattle.hog_bridge.specs.Laws.{IsNamed};
ghost use Rattle.hog_meaning.specs.Program.{meaning};
ghost use Rattle.vm_course.specs.Course.{end_in};
ghost use Rattle.hog_runner.specs.Commands.{IsOutput, IsReady, SourceOutputs, SourceRefuses};
ghost use Rattle.hog_runner.specs.Serves.{Puts, Serves};
ghost use Rattle.hog_runner.specs.Stops.{status_of};

use crate::program::{ProgramStop, read_program};
use crate::refusals::{refuse, refuse_source};
use crate::words::SourceCommand;
use bytecode_json::encode;
use hog_compiler::compile_tree;
use hog_outside::{Sink, Source};
use hog_printer::print_tree;
use hog_program::evaluate;
use hog_tree::tree::Tree;
use hog_value::HogText;
use hogvm::StartStop;
use line_writer::{OutputStop, write_line, write_lines, write_run};
use std::alloc::{AllocError, Global};
use vm_operations::Machine;

/// Does what a command asks for with the source that is read. Answers the status.
pub(crate) fn run_source<S: Source, W: Sink>(
    alloc: Global,
    command: SourceCommand,
    source: &mut S,
    sink: &mut W,
) -> u8
    ensures { Serves S.left S.faults W.taken W.faults
        (SourceRefuses command) (SourceOutputs command) (SourceOutputs command)
        source.old source.new sink.old sink.new result }
{
    match read_program(alloc, command, source) {
        Ok(program) => run(alloc, sink, command, &program),
        Err(ProgramStop::TooLarge) => {
            refuse(sink, b"refused: too large\n");
            1
        }
        Err(ProgramStop::Refused(stop)) => refuse_source(alloc, sink, stop),
        Err(ProgramStop::ReadFailed) => 3,
        Err(ProgramStop::OutOfMemory) => 5,
    }
}

/// Does what the command asks for with a program. Answers the status.
fn run<W: Sink>(alloc: Global, sink: &mut W, command: SourceCommand, program: &Tree) -> u8
    requires low { stms_nesting (tree_of program.now) ≤ deepest }
    requires ready { IsReady command (tree_of program.now) }
    ensures output { Puts W.taken W.faults (IsOutput command (tree_of program.now)) (IsOutput command (tree_of program.now))
        sink.old sink.new result }
    ensures count { W.faults sink.old ≤ W.faults sink.new }
{
    match command {
        SourceCommand::Eval => run_eval(alloc, sink, program),
        SourceCommand::Fmt => run_fmt(alloc, sink, program),
        SourceCommand::Compile => run_compile(alloc, sink, program),
    }
}

/// Runs a program, and writes what it shows.
fn run_eval<W: Sink>(alloc: Global, sink: &mut W, program: &Tree) -> u8
    requires low { stms_nesting (tree_of program.now) ≤ deepest }
    requires named { IsNamed (tree_of program.now) }
    ensures output { Puts W.taken W.faults (IsOutput SourceCommand.Eval (tree_of program.now))
        (IsOutput SourceCommand.Eval (tree_of program.now)) sink.old sink.new result }
    ensures count { W.faults sink.old ≤ W.faults sink.new }
{
    let Ok(machine) = evaluated(alloc, program) else {
        return 5;
    };
    status_of(write_run(alloc, sink, machine.shown()))
}

/// Writes the printed text of a program.
fn run_fmt<W: Sink>(alloc: Global, sink: &mut W, program: &Tree) -> u8
    ensures output { Puts W.taken W.faults (IsOutput SourceCommand.Fmt (tree_of program.now))
        (IsOutput SourceCommand.Fmt (tree_of program.now)) sink.old sink.new result }
    ensures count { W.faults sink.old ≤ W.faults sink.new }
{
    let Ok(text) = print_tree(alloc, program) else {
        return 5;
    };
    match write_lines(sink, text.bytes()) {
        Ok(()) => 0,
        Err(_) => 4,
    }
}

/// Writes the bytecode of a program on a line.
fn run_compile<W: Sink>(alloc: Global, sink: &mut W, program: &Tree) -> u8
    requires { stms_nesting (tree_of program.now) ≤ deepest }
    ensures output { Puts W.taken W.faults (IsOutput SourceCommand.Compile (tree_of program.now))
        (IsOutput SourceCommand.Compile (tree_of program.now)) sink.old sink.new result }
    ensures count { W.faults sink.old ≤ W.faults sink.new }
{
    let Ok(code) = compile_tree(alloc, program) else {
        return 5;
    };
    let Ok(line) = encode(alloc, &code) else {
        return 5;
    };
    status_of(write_line(alloc, sink, &line))
}

/// The status of an output that was to be written.
fn status_of(written: Result<(), OutputStop>) -> u8
    ensures { result ≡ status_of written }
{
    match written {
        Ok(()) => 0,
        Err(OutputStop::Failed) => 4,
        Err(OutputStop::OutOfMemory) => 5,
    }
}

/// The machine of a program on no globals and no replies, at its end or at a request for which it waits.
fn evaluated(alloc: Global, program: &Tree) -> Result<Machine, AllocError>
    requires low { stms_nesting (tree_of program.now) ≤ deepest }
    requires named { IsNamed (tree_of program.now) }
    ensures { IfOk result (λ m. meaning (tree_of program.now) (codes "{}") []
        ≡ record { trace = m.run.state.trace; end = end_in m.run.state.mode }) }
{
    let code = compile_tree(alloc, program)?;
    let globals = no_globals(alloc)?;
    match evaluate(alloc, &code, &globals) {
        Ok(machine) => Ok(machine),
        Err(StartStop::OutOfMemory) => Err(AllocError),
        Err(StartStop::NotAnObject) => unreachable!(),
    }
}

/// The JSON text of no globals.
fn no_globals(alloc: Global) -> Result<HogText, AllocError>
    ensures { IfOk result (λ text. text ≡ codes "{}") }
{
    Ok(HogText::from_string(String::from_str(alloc, "{}")?))
}
