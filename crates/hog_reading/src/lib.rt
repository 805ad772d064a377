//! What reading a text from left to right gives, and what reads parts: definitions, and the readers that others share.
//! Stands on hog_terms, hog_grammar, hog_tree and hog_value.
//! specs/Read.antt and ReadStatements.antt say what is read at each height; specs/Gives.antt how a reader's answer stands to
//! that. Above, the trait `Readers` is used: each reader of a form is proved for anything that reads the form's parts; and
//! `names`, `block`, `braced` and `several`, each of which gives what its definition reads.
#![tactic(auto)]

pub mod blocks;
pub mod found;
pub mod parameters;
pub mod readers;
