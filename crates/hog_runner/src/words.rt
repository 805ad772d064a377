//! The words that the program takes.

ghost use Rattle.std.specs.Prelude.{◌≡◌, ◌≤◌, IfSome};
ghost use Rattle.hog_runner.specs.Commands.{command_named, command_of, command_with, made_number, most_made, HasSmallNumber};

use hog_value::HogText;
use std::convert::AsStr;

/// The greatest number that `make` takes.
const MOST_MADE: u32 = 3_000;

/// The most digits of that number.
const MOST_DIGITS: usize = 4;

/// What the program can do.
#[derive(Clone, Copy, Debug, PartialEq, Eq)]
pub enum Command {
    /// Something with a Hog source.
    Source(SourceCommand),
    /// Plays a script on a queue.
    Replay,
    /// Makes the plan of a number, and works on its jobs.
    Make(u32),
}

/// What the program can do with a Hog source.
#[derive(Clone, Copy, Debug, PartialEq, Eq)]
pub enum SourceCommand {
    /// Runs a program.
    Eval,
    /// Prints the tree of a program.
    Fmt,
    /// Prints the bytecode of a program.
    Compile,
}

/// The command that the words ask for, if they are one.
pub fn command_of(words: &[HogText]) -> Option<Command>
    ensures value { result ≡ command_of words.now }
    ensures small { IfSome result HasSmallNumber }
{
    match words {
        [word] => command_named(word),
        [word, number] => command_with(word, number),
        _ => None,
    }
}

/// The command of that name.
fn command_named(word: &HogText) -> Option<Command>
    ensures value { result ≡ command_named word.now }
    ensures small { IfSome result HasSmallNumber }
{
    match word.as_str() {
        "eval" => Some(Command::Source(SourceCommand::Eval)),
        "fmt" => Some(Command::Source(SourceCommand::Fmt)),
        "compile" => Some(Command::Source(SourceCommand::Compile)),
        "replay" => Some(Command::Replay),
        _ => None,
    }
}

/// The command of that name and that number.
fn command_with(word: &HogText, number: &HogText) -> Option<Command>
    ensures value { result ≡ command_with word.now number.now }
    ensures small { IfSome result HasSmallNumber }
{
    match word.as_str() {
        "make" => {
            let n = made_number(number)?;
            Some(Command::Make(n))
        }
        _ => None,
    }
}

/// The number that a word spells: one to four decimal digits, of 3,000 at most.
fn made_number(word: &HogText) -> Option<u32>
    ensures value { result ≡ made_number word.now }
    ensures small { IfSome result (λ n. n ≤ most_made) }
{
    let digits = word.bytes();
    if digits.is_empty() || digits.len() > MOST_DIGITS {
        return None;
    }
    let mut n = 0;
    for digit in digits {
        if !digit.is_ascii_digit() {
            return None;
        }
        n = 10 * n + u32::from(*digit - b'0');
    }
    if n > MOST_MADE {
        return None;
    }
    Some(n)
}
