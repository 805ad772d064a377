//! Operations of the bytecode, and codes as lists of them.
//! Stands on hog_value.
//! Above, contracts see an operation as its plain operation (`op_of`), and a code as the plain
//! operations of which it is made; `IsCode` is what each code keeps.
//! No call takes memory.
#![tactic(auto)]

pub mod capture;
pub mod operation;

pub use capture::{Capture, Captures};
pub use operation::{CallableOp, Code, Op};
