//! The parts of a machine: its stack, its frames, its throw frames, its upvalues, and the table of its code.
//! Stands on vm_course, which says what a machine holds and does, hog_ops, hog_value and index_lists.
//! Contracts see each part as the list that the definitions of vm_course speak of, whatever holds it.
//! Above, the machine's operations are made of the calls of the five types.
//! No call but those that answer `AllocError` takes memory.
#![tactic(auto)]

mod extents;
pub mod frames;
mod listed;
mod literals;
mod order;
mod slots;
pub mod stack;
pub mod table;
pub mod throws;
pub mod upvalues;

pub use frames::{Frame, Frames};
pub use stack::Stack;
pub use table::{Begin, Table};
pub use throws::{ThrowFrame, Throws};
pub use upvalues::{Upvalue, Upvalues};
