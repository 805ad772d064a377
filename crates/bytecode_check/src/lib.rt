//! Which bytecode a machine can run without ever lacking an operand, a local, an upvalue or a try.
//! Stands on hog_ops: a code is the plain operations of which it is made.
//! specs/Effects.antt is the table of operations, specs/Verify.antt says what refuses a code.
//! Above, `verify` is used: its `Ok` holds a code that is accepted, each refusal is the first.
//! A pass takes time and memory in line with the code's length.
#![tactic(auto)]

mod checker;
mod shapes;
mod stops;
mod table;
#[cfg(test)]
mod tests;
mod verified;

pub use checker::Around;
pub use stops::VerifyStop;
pub use table::Effect;
pub use verified::{Verified, verify};
