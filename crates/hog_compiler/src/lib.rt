//! The code of a program.
//! Stands on hog_captures, hog_scope, hog_ops, hog_tree and hog_value.
//! Above, `compile` gives the code that specs/Code.antt says (`code_of`), form by form; specs/Pieces.antt says what the
//! code of jumps, loops and pops is; hog_tree's specs/Nesting.antt says how deep functions may stand in one another.
//! No machine is cited.
#![tactic(auto)]

mod draft;
mod forms;
mod items;
mod pieces;
mod pops;
mod program;

pub use program::{compile, compile_tree};
