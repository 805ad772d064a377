//! The trees of Hog programs, with the places of the words that name something.
//! Stands on hog_value.
//! Above, contracts see a tree as the plain tree without pointers and places that `tree_of` gives
//! (specs/Plain.antt, specs/View.antt); specs/Count.antt counts its statements and expressions.
//! proofs/Rows.antt says what the plain tree of each form with a list is; every reader of trees cites it.
#![tactic(auto)]

pub mod tree;
