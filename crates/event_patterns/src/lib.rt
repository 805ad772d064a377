//! Patterns of event names: regular expressions that are read from a text and looked for in another.
//! Stands on hog_value, and on the kit's regex.
//! Above, `Pattern` is used: contracts see the text that it was read from and the expression that the grammar
//! reads there, and `is_in` answers whether that expression matches somewhere in a text.
//! A text with an open brace is refused, and another only where the grammar of regex refuses it.
#![tactic(auto)]

pub mod pattern;

pub use pattern::{Pattern, PatternStop};

#[cfg(test)]
mod tests;
