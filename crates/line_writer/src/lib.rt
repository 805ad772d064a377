//! Writing of bytes, lines and what a run shows to a sink.
//! Stands on hog_outside, hog_value and hog_json.
//! Above, contracts say what a call added to the bytes that a sink took (`AddsBytes`, `AddsPrefix`, `AddsSome` of specs/Added.antt).
//! A line goes out in one piece with its line feed; where a write takes a part of it, the rest goes out next.
//! A call fails only where the sink's count of faults rose, or for want of memory, and a prefix is written then.
#![tactic(auto)]

pub mod output;

pub use output::{
    OutputStop, write_end, write_line, write_lines, write_run, write_shown, write_trace,
    write_whole,
};
