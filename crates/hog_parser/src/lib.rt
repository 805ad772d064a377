//! The parser: the tree that the tokens of a text spell.
//! Stands on hog_expressions, hog_statements, hog_spelling, hog_reading, hog_terms, hog_grammar, hog_tree and hog_value.
//! Above, `parse` is used: it gives the tree of a program of height 100 at most, with at most two statements
//! and expressions for each token, and refuses just what is spelled at no height or is higher.
//! Its readers stand below, each proved alone; specs/Before.antt counts the tokens before a place.
#![tactic(auto)]

mod parsing;
mod room;

pub use parsing::{ParseStop, parse};
