//! The printer: the text of a tree, one statement a line.
//! Stands on hog_grammar, hog_tree and hog_value, and for its laws on hog_tokens and hog_spelling.
//! Above, `print_tree` is used: its text is `printed` of the plain tree;
//! and `reads_back` is cited: the tokens of a printed program spell that program,
//! for each program that a text has.
#![tactic(auto)]

mod form;
pub mod laws;
mod layout;
mod printer;
mod quotes;
mod words;

pub use printer::print_tree;
