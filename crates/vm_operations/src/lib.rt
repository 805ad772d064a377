//! The machine, and the operations that run.
//! Stands on vm_frames (its parts), hog_operators (what operators give), hog_library (natives) and those below.
//! specs/Here.antt says where an operation stands and what every machine keeps; vm_course says what each does.
//! Above, the operations of the machine are used: each leaves the state that its definition says.
//! Want of memory alone is free.
#![tactic(auto)]

mod calls;
mod closures;
mod functions;
mod gathers;
mod globals;
mod jumps;
pub mod machine;
mod natives;
pub mod parts;
pub mod state;
mod step;
mod throwing;
mod values;

pub use machine::Machine;
