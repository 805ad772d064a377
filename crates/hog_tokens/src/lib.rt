//! The lexer: cuts a text into the tokens of the grammar.
//! Stands on hog_grammar.
//! Above, `lex` is used: Ok gives the text with the one list of its tokens;
//! `NotUtf8` comes exactly where the bytes aren't UTF-8, and each other refusal, want of memory aside,
//! exactly where the text has that fault at its least bad place.
#![tactic(auto)]

mod bytes;
pub mod laws;
pub mod lexer;
mod pieces;
mod places;

pub use lexer::{LexStop, lex};
