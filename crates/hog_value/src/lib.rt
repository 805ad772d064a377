//! Values, cells and heaps of Hog programs, meters, texts, and what a run shows: its trace and its end.
//! Stands on no crate of the repository.
//! Above, contracts see a text as the list of its bytes, which are UTF-8, a heap as the list of its cells,
//! and each operation on a heap by one definition of `specs/Operations.antt`, with exact charges.
//! Every call that takes memory answers `AllocError`, or a variant `OutOfMemory`, where there is none.
#![tactic(auto)]

pub mod cell;
pub mod heap;
pub mod items;
pub mod meter;
pub mod native;
pub mod pairs;
pub mod text;
pub mod trace;
pub mod value;

pub use cell::{Cell, FunCell};
pub use heap::Heap;
pub use items::{Bytes, Items, Numbers, Texts};
pub use meter::Meter;
pub use native::Native;
pub use pairs::Pairs;
pub use text::{HogText, TextStop};
pub use trace::{End, Request, Shown, Trace, TraceItem};
pub use value::{Kind, SetStop, Stop, Value};
