//! Programs of Hog as texts: which sources are programs, what they mention of the prelude, and why others are none.
//! Stands on hog_tokens, hog_parser, hog_printer, hog_grammar, hog_scope, hog_compiler, hog_bridge and those below.
//! Above, `read_tree` gives the tree of a source, and `read_whole` the whole program whose names are without fault,
//! or a refusal (specs/Source.antt, specs/Build.antt), and `Program::build` its code; the laws of laws.rt say that a source has one of these or a
//! refusal, and never both, so each refusal comes exactly where it should.
#![tactic(auto)]

pub mod evaluation;
pub mod laws;
mod prelude;
pub mod program;
pub mod source;
pub mod stop;

pub use evaluation::evaluate;
pub use program::Program;
pub use source::{read_tree, read_whole};
pub use stop::BuildStop;
