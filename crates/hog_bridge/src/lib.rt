//! What ties the meaning of programs to the machine's course on their code: laws, and nothing that runs.
//! Stands on hog_meaning, hog_compiler and vm_course.
//! Each law is the contract of a public function with an empty body.
//! Above, the crate of programs cites them.
//! specs/ says the laws and the computed examples; proofs/ is by subject.
#![tactic(auto)]

pub mod examples;
pub mod laws;
