//! How reading and spelling stand to each other: laws, and nothing that runs.
//! Stands on hog_reading, hog_terms, hog_grammar, hog_tree and hog_value.
//! Above, the functions of laws.rt are cited: what is read is spelled, and what is refused is spelled at no height up to the
//! one that was tried; a list of tokens spells at most one program, at one height. specs/Laws.antt states them.
//! proofs/Complete.antt shows that what is spelled is read, SoundLoops.antt the converse, Nested.antt what stands before a stop.
#![tactic(auto)]

pub mod laws;
