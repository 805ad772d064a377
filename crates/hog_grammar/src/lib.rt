//! The grammar of Hog: the tokens of a text, and which tokens spell which tree at which height.
//! Stands on hog_tree.
//! Above, lexer, parser and printer cite its definitions: `IsTokensOf` and `IsFirstFault` for texts,
//! `terminals` for what tokens mean to the grammar, `Spells` for trees;
//! and they pass a text with its tokens as `Tokens`, whose list is always that of its text.
#![tactic(auto)]

pub mod token;
pub mod tokens;

pub use token::{Fault, Token, TokenKind};
pub use tokens::Tokens;
