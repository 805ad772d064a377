//! Lists of numbered nodes, each doubly linked through one vector of links.
//! Stands on no crate of the repository.
//! Above, contracts see a `Lists` as its lists of node numbers and how many nodes are reserved (`ListsOf`); after `reserve` no call takes
//! memory. `insert_by` puts a node at its place by an order (`Before`), first or last in constant time, as `unlink`, `first` and `next` are.
//! Lemmas for callers stand in proofs/: Orders, ListOf (all nodes that stand somewhere, as one changes), Walk, Changed.
#![tactic(auto)]

pub mod before;
pub mod lists;
#[cfg(test)]
mod tests;

pub use before::Before;
pub use lists::Lists;
