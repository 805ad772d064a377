//! The program `hog_runner`: reads standard input, and writes to standard output what its words ask for.
//! Stands on hog_outside, line_writer, hog_program, hog_printer, hog_compiler, bytecode_json, script_steps, made_jobs and those below.
//! The contract is that of `top_still`: when each status comes, and what is read and written at it, for every list of
//! words, every input, and every fault of the source, the sink and the keeper; and what the queue of a script or of a made plan keeps.
//! specs/Writes.antt and Commands.antt say what the program answers for its words and its input.
#![tactic(auto)]

pub mod answer;
pub mod causes;
pub mod input;
mod plans;
pub mod program;
mod refusals;
mod replays;
pub mod script;
mod sources;
pub mod top;
pub mod words;

use crate::top::top_still;
use hog_outside::{Input, Output};
use hog_value::HogText;
use job_keeper::NoKeeper;
use std::alloc::{AllocError, Global};
use std::process::ExitCode;
use std::rt::Env;
use std::{env, io};

fn main(rt: HostRuntime) -> ExitCode {
    let Ok(words) = given_words(&rt, rt.alloc()) else {
        return ExitCode::from(5);
    };
    let mut source = Input::new(rt.reader());
    let mut sink = Output::new(io::writer(&rt));
    let answer = top_still(rt.alloc(), &words, &mut source, &mut sink, NoKeeper);
    ExitCode::from(answer.status)
}

/// The arguments behind the program's name. Where one isn't UTF-8 there are none, since no command has
/// such a word.
fn given_words<R: Env + AllocGlobal>(rt: &R, alloc: Global) -> Result<Vec<HogText>, AllocError> {
    let mut words = Vec::new(alloc);
    let arguments = match env::args(rt) {
        Ok(arguments) => arguments,
        Err(e) if e.kind() == io::ErrorKind::OutOfMemory => return Err(AllocError),
        Err(_) => return Ok(words),
    };
    for argument in arguments.skip(1) {
        words.push(HogText::from_string(argument))?;
    }
    Ok(words)
}
