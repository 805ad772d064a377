//! Tokens.

/// What a token is. A template gives several: its `f'`, each run of characters, the `{` and `}` of each
/// hole with the tokens between them, and its closing `'`.
#[derive(Clone, Copy, Debug, PartialEq, Eq)]
pub enum TokenKind {
    Word,
    Number,
    Text,
    Mark,
    TemplateStart,
    TemplateText,
    HoleStart,
    HoleEnd,
    TemplateEnd,
}

/// A token: the bytes of its text from `from` up to `to`.
#[derive(Clone, Copy, Debug, PartialEq, Eq)]
pub struct Token {
    pub kind: TokenKind,
    pub from: u32,
    pub to: u32,
}

/// Why a text has no tokens.
#[derive(Clone, Copy, Debug, PartialEq, Eq)]
pub enum Fault {
    /// A byte that begins no token, or a backslash that begins no escape.
    BadByte,
    /// A text, a template or a comment without its end.
    Unclosed,
    /// A number past 9223372036854775807.
    TooLarge,
}
