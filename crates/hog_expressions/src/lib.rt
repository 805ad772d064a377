//! The readers of expressions, with one token of lookahead.
//! Stands on hog_reading, hog_terms, hog_grammar, hog_tree and hog_value.
//! Each is proved for anything that reads the parts of an expression (`Readers` of hog_reading).
//! Above, `leveled` is used: it gives what the definition reads of an expression of a level, at a height.
//! The loops' lemmas stand in proofs/ExpressionLoops.antt, and in hog_reading.
#![tactic(auto)]

pub mod expressions;
