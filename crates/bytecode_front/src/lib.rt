//! The elements of bytecode: which operation stands at the front of a list of JSON values.
//! Stands on hog_ops, hog_value and serde_json.
//! Above, contracts cite what stands at the front (`front_of`), and the operations of a list of
//! elements or its first fault (`read_ops`), with what is known of operations that were read.
//! No call takes memory.
#![tactic(auto)]

pub mod front;
pub mod stop;
