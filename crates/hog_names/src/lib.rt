//! What ties the numbers of declarations that `resolve` gives to the environments of the meaning: laws, and nothing that runs.
//! Stands on hog_bridge, hog_meaning, hog_captures and hog_scope.
//! specs/Numbers.antt says what environments find for each word, Anew.antt a program with its variables called anew, and
//! Laws.antt the laws: the numbers are those that environments find, and the meaning goes by them.
//! Above, nothing cites them: they are for who reads the definitions. proofs/ is by subject.
#![tactic(auto)]

pub mod examples;
pub mod laws;
