//! What is outside the program: where bytes come from, and where they go.
//! Stands on no crate of the repository.
//! Above, `Source` and `Sink` are used: a call fails only where the count of faults rose in it,
//! and where a source or a sink tells its bytes, a call takes or adds just those that it says.
//! `MemSource` and `MemSink` are both in memory; `Input` and `Output` adapt the standard streams.
#![tactic(auto)]

pub mod memory;
pub mod standard;
pub mod streams;

pub use memory::{MemSink, MemSource};
pub use standard::{Input, Output};
pub use streams::{Failed, Sink, Source};
