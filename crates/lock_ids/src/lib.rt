//! Ids of leases: a job's number and a draw, written as 128 bits.
//! Stands on hog_value, and on `uuid` for the written form.
//! Above, contracts see an id as the pair of its two numbers, and two ids are one where both agree.
//! The written form is `id_text`, and `read` of it gives the id back.
//! A text names no id where `uuid` reads nothing, or a job past the range of `u32`.
#![tactic(auto)]

pub mod lock;

pub use lock::{LockId, LockStop};
