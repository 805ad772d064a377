//! What stands at an index of the tokens of a text: the next token's meaning, marks, operators, names and words.
//! Stands on hog_grammar, hog_tree and hog_value.
//! Above, each call answers the index after what it read: contracts see the meanings of the tokens that are left there
//! (`left` of specs/View.antt), and specs/Marks.antt and Listed.antt say what each call asks of them.
#![tactic(auto)]

pub mod cursor;
pub mod listed;
pub mod literals;
pub mod marks;
pub mod term;
pub mod words;
