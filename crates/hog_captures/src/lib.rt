//! How the code of a function finds words: the frame of its locals and captured variables, and the free words of parts of
//! a program.
//! Stands on hog_ops and hog_tree.
//! Above, specs/Frees.antt says which words of a part are free, and Frames.antt what a frame knows and what a function
//! that is made in it captures.
#![tactic(auto)]

mod captured;
mod declared;
mod finder;
mod frame;
mod takes;
mod words;

pub use captured::Captured;
pub use declared::declared_by;
pub use frame::Frame;
pub use takes::{for_takes, fun_takes, stmts_take};
