//! The readers of statements, with `;` left out where it may be.
//! Stands on hog_reading, hog_terms, hog_grammar, hog_tree and hog_value.
//! Each is proved for anything that reads the parts of a statement (`Readers` of hog_reading).
//! Above, `begun` is used: it gives what the definition reads of a statement, at a height.
//! The lemmas on statements of several parts stand in proofs/Compounds.antt.
#![tactic(auto)]

pub mod statements;
