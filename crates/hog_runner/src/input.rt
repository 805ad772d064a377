//! The read loop.

ghost use Rattle.std.specs.Prelude.{◌≡◌, ℕ, ◌+◌, ◌-◌, ◌<◌, ◌≤◌, List, [], length, IfOk, OnOk, vec_len};
ghost use Rattle.std.specs.Option.{ForSome};
ghost use Rattle.hog_outside.specs.Faults.{Rose};
ghost use Rattle.hog_runner.specs.Takes.{ReadsInto, TakesAtMost};
ghost use Rattle.hog_runner.specs.Commands.{most_bytes};

use hog_outside::{Failed, Source};
use std::alloc::{AllocError, Global};

/// The most bytes of input that are taken.
const MOST_BYTES: usize = 16_777_216;

/// The most bytes that one read asks for.
const CHUNK: usize = 65_536;

/// Why there is no text.
#[derive(Clone, Copy, Debug, PartialEq, Eq)]
pub enum InputStop {
    /// More than 16,777,216 bytes were read.
    TooLarge,
    /// A read failed.
    Failed,
    OutOfMemory,
}

impl From<Failed> for InputStop {
    ghost use Rattle.std.specs.Prelude.{◌≡◌};
    ghost use Rattle.hog_runner.specs.declared.input.InputStop.TheVariants as stop;

    ghost from_gives = { λ _ e. e ≡ stop.Failed };

    fn from(_failed: Failed) -> InputStop {
        InputStop::Failed
    }
}

impl From<AllocError> for InputStop {
    ghost use Rattle.std.specs.Prelude.{◌≡◌};
    ghost use Rattle.hog_runner.specs.declared.input.InputStop.TheVariants.{OutOfMemory};

    ghost from_gives = { λ _ e. e ≡ OutOfMemory };

    fn from(_refused: AllocError) -> InputStop {
        InputStop::OutOfMemory
    }
}

/// Reads a source to its end, or to one byte past what is taken.
/// Each turn of the loop takes at least one byte, or is the last.
pub fn read_all<S: Source>(alloc: Global, source: &mut S) -> Result<Vec<u8>, InputStop>
    ensures text { IfOk result (λ text. ForSome (S.left source.old) (λ bytes. text.items ≡ bytes)) }
    ensures end { OnOk result (ForSome (S.left source.old) (λ _. S.left source.new ≡ Some [])) }
    ensures small { IfOk result (λ text. vec_len text ≤ most_bytes) }
    ensures large { result ≡ Err InputStop.TooLarge
        → ForSome (S.left source.old) (λ bytes. most_bytes < length bytes) }
    ensures failed { result ≡ Err InputStop.Failed
        → Rose (S.faults source.old) (S.faults source.new) }
    ensures bounded { TakesAtMost (most_bytes + 1) (S.left source.old) (S.left source.new) }
    ensures count { S.faults source.old ≤ S.faults source.new }
{
    let mut chunk = make_chunk(alloc)?;
    let mut text = Vec::new(alloc);
    while text.len() <= MOST_BYTES {
        if read_more(source, &mut chunk, &mut text)? == 0 {
            return Ok(text);
        }
    }
    Err(InputStop::TooLarge)
}

/// A buffer for the reads.
fn make_chunk(alloc: Global) -> Result<Vec<u8>, AllocError>
    ensures { IfOk result (λ chunk. 0 < vec_len chunk) }
{
    vec![in alloc; 0u8; CHUNK]
}

/// A turn of the loop. Says how many bytes it added to the text: none only at the end.
fn read_more<S: Source>(
    source: &mut S,
    chunk: &mut [u8],
    text: &mut Vec<u8>,
) -> Result<usize, InputStop>
    requires some { 0 < length chunk.old }
    requires room { vec_len text.old ≤ most_bytes }
    ensures grown { IfOk result (λ n. vec_len text.new ≡ vec_len text.old + n) }
    ensures most { OnOk result (vec_len text.new ≤ most_bytes + 1) }
    ensures moves { OnOk result (ReadsInto (S.left source.old) (S.left source.new)
        text.old.items text.new.items) }
    ensures end { IfOk result (λ n. n ≡ 0 → ForSome (S.left source.old) (λ _. S.left source.new ≡ Some [])) }
    ensures large { ¬ (result ≡ Err InputStop.TooLarge) }
    ensures failed { result ≡ Err InputStop.Failed
        → Rose (S.faults source.old) (S.faults source.new) }
    ensures bounded { TakesAtMost (most_bytes + 1 - vec_len text.old)
        (S.left source.old) (S.left source.new) }
    ensures count { S.faults source.old ≤ S.faults source.new }
{
    let most = chunk.len().min(MOST_BYTES + 1 - text.len());
    read_some(source, &mut chunk[..most], text)
}

/// One read into a buffer, whose bytes are then added to the text.
fn read_some<S: Source>(
    source: &mut S,
    buf: &mut [u8],
    text: &mut Vec<u8>,
) -> Result<usize, InputStop>
    requires { 0 < length buf.old }
    ensures within { IfOk result (λ n. n ≤ length buf.old) }
    ensures grown { IfOk result (λ n. vec_len text.new ≡ vec_len text.old + n) }
    ensures moves { OnOk result (ReadsInto (S.left source.old) (S.left source.new)
        text.old.items text.new.items) }
    ensures end { IfOk result (λ n. n ≡ 0 → ForSome (S.left source.old) (λ _. S.left source.new ≡ Some [])) }
    ensures large { ¬ (result ≡ Err InputStop.TooLarge) }
    ensures failed { result ≡ Err InputStop.Failed
        → Rose (S.faults source.old) (S.faults source.new) }
    ensures bounded { TakesAtMost (length buf.old) (S.left source.old) (S.left source.new) }
    ensures count { S.faults source.old ≤ S.faults source.new }
{
    let n = source.read(buf)?;
    text.extend_from_slice(&buf[..n])?;
    Ok(n)
}
