//! From elements to a code: the first fault of elements, and the code of those that have none.
//! Stands on bytecode_front, hog_ops, hog_value and serde_json.
//! Above, `scan` answers the first fault or marks where operations begin, and `build` gives the
//! code or the first operation whose distance leads nowhere (`placed`).
//! Both are linear in the elements, and go as deep as bodies stand in one another.
#![tactic(auto)]

pub mod build;
pub mod scan;
