//! The write loop.

ghost use Rattle.std.specs.Prelude.{◌≡◌, ◌<◌, ◌≤◌, ◌++◌, [], ◌∷◌, length, OnOk, OnErr};
ghost use Rattle.hog_outside.specs.Faults.{Rose};
ghost use Rattle.line_writer.specs.Added.{AddsBytes, AddsPrefix};
ghost use Rattle.hog_json.specs.Lines.{ended, trace_lines};
ghost use Rattle.line_writer.specs.Lines.{end_lines, output_of, rest_line, run_output};

use hog_json::{end_line, trace_line};
use hog_outside::{Failed, Sink};
use hog_value::{End, HogText, Shown, TraceItem};
use std::alloc::{AllocError, AllocFailed, Global};

/// Why not all was written.
#[derive(Clone, Copy, Debug, PartialEq, Eq)]
pub enum OutputStop {
    /// A write failed.
    Failed,
    OutOfMemory,
}

impl From<Failed> for OutputStop {
    ghost use Rattle.std.specs.Prelude.{◌≡◌};
    ghost use Rattle.line_writer.specs.declared.output.OutputStop.TheVariants as stop;

    ghost from_gives = { λ _ e. e ≡ stop.Failed };

    fn from(_failed: Failed) -> OutputStop {
        OutputStop::Failed
    }
}

impl From<AllocError> for OutputStop {
    ghost use Rattle.std.specs.Prelude.{◌≡◌};
    ghost use Rattle.line_writer.specs.declared.output.OutputStop.TheVariants.{OutOfMemory};

    ghost from_gives = { λ _ e. e ≡ OutOfMemory };

    fn from(_refused: AllocError) -> OutputStop {
        OutputStop::OutOfMemory
    }
}

impl<T: Drop> From<AllocFailed<T>> for OutputStop {
    ghost use Rattle.std.specs.Prelude.{◌≡◌};
    ghost use Rattle.line_writer.specs.declared.output.OutputStop.TheVariants.{OutOfMemory};

    ghost from_gives = { λ _ e. e ≡ OutOfMemory };

    fn from(_refused: AllocFailed<T>) -> OutputStop {
        OutputStop::OutOfMemory
    }
}

/// Hands a piece to the sink, and goes on where a write stopped, until all of it is taken.
pub fn write_whole<W: Sink>(sink: &mut W, piece: &[u8]) -> Result<(), Failed>
    ensures ok { OnOk result (AddsBytes (W.taken sink.old) (W.taken sink.new) piece.now) }
    ensures prefix { AddsPrefix (W.taken sink.old) (W.taken sink.new) piece.now }
    ensures failed { OnErr result (Rose (W.faults sink.old) (W.faults sink.new)) }
    ensures count { W.faults sink.old ≤ W.faults sink.new }
{
    let mut at = 0;
    while at < piece.len() {
        at += sink.write(&piece[at..])?;
    }
    Ok(())
}

/// Hands a text to the sink line by line, each line with its line feed in one piece. Behind the last line feed there may be a
/// line without one.
pub fn write_lines<W: Sink>(sink: &mut W, text: &[u8]) -> Result<(), Failed>
    ensures ok { OnOk result (AddsBytes (W.taken sink.old) (W.taken sink.new) text.now) }
    ensures prefix { AddsPrefix (W.taken sink.old) (W.taken sink.new) text.now }
    ensures failed { OnErr result (Rose (W.faults sink.old) (W.faults sink.new)) }
    ensures count { W.faults sink.old ≤ W.faults sink.new }
{
    let mut at = 0;
    while at < text.len() {
        let end = line_end(text, at);
        write_whole(sink, &text[at..end])?;
        at = end;
    }
    Ok(())
}

/// Where the line ends that begins at a place: behind its line feed, or at the end of the text.
fn line_end(text: &[u8], from: usize) -> usize
    requires { from < length text.now }
    ensures after { from < result }
    ensures within { result ≤ length text.now }
{
    match text[from..].iter().position(|byte| *byte == b'\n') {
        Some(n) => from + n + 1,
        None => text.len(),
    }
}

/// Hands a line and its line feed to the sink in one piece.
pub fn write_line<W: Sink>(alloc: Global, sink: &mut W, line: &HogText) -> Result<(), OutputStop>
    ensures ok { OnOk result (AddsBytes (W.taken sink.old) (W.taken sink.new) (ended line.now)) }
    ensures prefix { AddsPrefix (W.taken sink.old) (W.taken sink.new) (ended line.now) }
    ensures failed { result ≡ Err OutputStop.Failed
        → Rose (W.faults sink.old) (W.faults sink.new) }
    ensures count { W.faults sink.old ≤ W.faults sink.new }
{
    let mut piece = Vec::from_slice(alloc, line.bytes())?;
    piece.push(b'\n')?;
    write_whole(sink, &piece)?;
    Ok(())
}

/// Writes the lines of a trace.
pub fn write_trace<W: Sink>(
    alloc: Global,
    sink: &mut W,
    items: &[TraceItem],
) -> Result<(), OutputStop>
    ensures ok { OnOk result (AddsBytes (W.taken sink.old) (W.taken sink.new) (trace_lines items.now)) }
    ensures prefix { AddsPrefix (W.taken sink.old) (W.taken sink.new) (trace_lines items.now) }
    ensures failed { result ≡ Err OutputStop.Failed
        → Rose (W.faults sink.old) (W.faults sink.new) }
    ensures count { W.faults sink.old ≤ W.faults sink.new }
{
    for item in items {
        let line = trace_line(alloc, item)?;
        write_line(alloc, sink, &line)?;
    }
    Ok(())
}

/// Writes the line of an end, where there is one.
pub fn write_end<W: Sink>(alloc: Global, sink: &mut W, end: &Option<End>) -> Result<(), OutputStop>
    ensures ok { OnOk result (AddsBytes (W.taken sink.old) (W.taken sink.new) (end_lines end.now)) }
    ensures prefix { AddsPrefix (W.taken sink.old) (W.taken sink.new) (end_lines end.now) }
    ensures failed { result ≡ Err OutputStop.Failed
        → Rose (W.faults sink.old) (W.faults sink.new) }
    ensures count { W.faults sink.old ≤ W.faults sink.new }
{
    match end {
        Some(end) => {
            let line = end_line(alloc, end)?;
            write_line(alloc, sink, &line)
        }
        None => Ok(()),
    }
}

/// Writes the lines of a run.
pub fn write_shown<W: Sink>(alloc: Global, sink: &mut W, shown: &Shown) -> Result<(), OutputStop>
    ensures ok { OnOk result (AddsBytes (W.taken sink.old) (W.taken sink.new) (output_of shown.now)) }
    ensures prefix { AddsPrefix (W.taken sink.old) (W.taken sink.new) (output_of shown.now) }
    ensures failed { result ≡ Err OutputStop.Failed
        → Rose (W.faults sink.old) (W.faults sink.new) }
    ensures count { W.faults sink.old ≤ W.faults sink.new }
{
    write_trace(alloc, sink, shown.trace.items())?;
    write_end(alloc, sink, &shown.end)
}

/// Writes the line of an end, or that a run waits, where there is none.
fn write_rest<W: Sink>(alloc: Global, sink: &mut W, end: &Option<End>) -> Result<(), OutputStop>
    ensures ok { OnOk result (AddsBytes (W.taken sink.old) (W.taken sink.new) (rest_line end.now)) }
    ensures prefix { AddsPrefix (W.taken sink.old) (W.taken sink.new) (rest_line end.now) }
    ensures failed { result ≡ Err OutputStop.Failed
        → Rose (W.faults sink.old) (W.faults sink.new) }
    ensures count { W.faults sink.old ≤ W.faults sink.new }
{
    match end {
        Some(_) => write_end(alloc, sink, end),
        None => {
            write_whole(sink, b"waiting\n")?;
            Ok(())
        }
    }
}

/// Writes the lines of a run that went as far as it can: its trace, and then its end, or that it waits.
pub fn write_run<W: Sink>(alloc: Global, sink: &mut W, shown: &Shown) -> Result<(), OutputStop>
    ensures ok { OnOk result (AddsBytes (W.taken sink.old) (W.taken sink.new) (run_output shown.now.trace shown.now.end)) }
    ensures prefix { AddsPrefix (W.taken sink.old) (W.taken sink.new) (run_output shown.now.trace shown.now.end) }
    ensures failed { result ≡ Err OutputStop.Failed
        → Rose (W.faults sink.old) (W.faults sink.new) }
    ensures count { W.faults sink.old ≤ W.faults sink.new }
{
    write_trace(alloc, sink, shown.trace.items())?;
    write_rest(alloc, sink, &shown.end)
}
