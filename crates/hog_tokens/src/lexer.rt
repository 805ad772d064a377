//! The lexer.

ghost use Rattle.std.specs.Prelude.{◌≡◌, ◌≤◌, ◌<◌, ◌+◌, ◌^◌, ◌++◌, [], ℕ, List, length, IfOk, IfErr, OnOk, cond};
ghost use Rattle.std.specs.Option.{ForSome};
ghost use Rattle.std.specs.Str.{IsUtf8, IsValidUpTo};
ghost use Rattle.hog_grammar.specs.Pieces.{IsTokensOf, AreInOrder, with_token};
ghost use Rattle.hog_grammar.specs.Faults.{IsFirstFault};
ghost use Rattle.hog_tokens.specs.Reading.{first_found, shifted};
ghost use Rattle.hog_tokens.specs.View.{token_kind, stop_of, TellsFault, Refuses, Reads};

use crate::pieces::{Kind, begin};
use crate::places::Place;
use hog_grammar::{Fault, Token, TokenKind, Tokens};
use std::alloc::{AllocError, AllocFailed, Global};

/// Why a text has no tokens. `at` is the place of a byte, counted from 0.
#[derive(Clone, Copy, Debug, PartialEq, Eq)]
pub enum LexStop {
    /// The bytes aren't UTF-8; the longest prefix that is has `at` bytes.
    NotUtf8 { at: usize },
    /// A byte that begins no token, or a backslash that begins no escape.
    BadByte { at: usize },
    /// A text, a template or a comment without its end, at its start.
    Unclosed { at: usize },
    /// A number past 9223372036854775807, at its start.
    TooLarge { at: usize },
    OutOfMemory,
}

impl From<AllocError> for LexStop {
    ghost from_gives = { λ _ e. e ≡ OutOfMemory };

    ghost use Rattle.hog_tokens.specs.declared.lexer.LexStop.TheVariants.{OutOfMemory};

    fn from(_error: AllocError) -> Self {
        LexStop::OutOfMemory
    }
}

impl<T: Drop> From<AllocFailed<T>> for LexStop {
    ghost from_gives = { λ _ e. e ≡ OutOfMemory };

    ghost use Rattle.hog_tokens.specs.declared.lexer.LexStop.TheVariants.{OutOfMemory};

    fn from(_error: AllocFailed<T>) -> Self {
        LexStop::OutOfMemory
    }
}

/// The kind of token that a piece is, if it is one.
fn kind_of_token(kind: Kind) -> Option<TokenKind>
    ensures { result ≡ token_kind kind }
{
    match kind {
        Kind::Gap => None,
        Kind::Word => Some(TokenKind::Word),
        Kind::Number => Some(TokenKind::Number),
        Kind::Text => Some(TokenKind::Text),
        Kind::Mark | Kind::OpenBrace | Kind::CloseBrace => Some(TokenKind::Mark),
        Kind::TemplateStart => Some(TokenKind::TemplateStart),
        Kind::Characters => Some(TokenKind::TemplateText),
        Kind::HoleStart => Some(TokenKind::HoleStart),
        Kind::HoleEnd => Some(TokenKind::HoleEnd),
        Kind::TemplateEnd => Some(TokenKind::TemplateEnd),
    }
}

/// Adds the token that a piece is, if it is one.
fn add(list: &mut Vec<Token>, kind: Kind, from: usize, to: usize) -> Result<(), AllocError>
    requires from_small { from ≤ 16384 }
    requires to_small { to ≤ 16384 }
    ensures { OnOk result (list.new.items ≡ list.old.items ++ with_token (token_kind kind) from to []) }
{
    if let Some(kind) = kind_of_token(kind) {
        list.push(Token {
            kind,
            from: from as u32,
            to: to as u32,
        })?;
    }
    Ok(())
}

/// The first fault so far, where a piece begins at a place.
fn first_fault(
    found: Option<(Fault, usize)>,
    fault: Option<(Fault, usize)>,
    at: usize,
) -> Option<(Fault, usize)>
    requires { ForSome fault (λ x. at + x.1 < 2 ^ 64) }
    ensures { result ≡ first_found found (shifted at fault) }
{
    match found {
        Some(first) => Some(first),
        None => match fault {
            Some((fault, offset)) => Some((fault, at + offset)),
            None => None,
        },
    }
}

fn stop(fault: Fault, at: usize) -> LexStop
    ensures { result ≡ stop_of fault at }
{
    match fault {
        Fault::BadByte => LexStop::BadByte { at },
        Fault::Unclosed => LexStop::Unclosed { at },
        Fault::TooLarge => LexStop::TooLarge { at },
    }
}

/// The tokens of a text, or its first fault.
fn cut(alloc: Global, text: &[u8]) -> Result<Vec<Token>, LexStop>
    requires utf8 { IsUtf8 text.now }
    requires short { length text.now ≤ 16384 }
    ensures tokens { IfOk result (λ v. IsTokensOf text.now v.items) }
    ensures fault { IfErr result (TellsFault text.now) }
{
    let mut list = Vec::new(alloc);
    let mut place = Place::new(alloc);
    let mut rest = text;
    let mut found = None;
    let mut start = 0;
    'pieces: loop {
        let at = text.len() - rest.len();
        let outside = place.is_outside();
        if outside {
            if let Some((fault, at)) = found {
                return Err(stop(fault, at));
            }
            if rest.is_empty() {
                return Ok(list);
            }
            start = at;
        }
        let Some(piece) = begin(place.spot(), rest) else {
            return Err(LexStop::Unclosed { at: start });
        };
        found = first_fault(found, piece.fault, at);
        add(&mut list, piece.kind, at, text.len() - piece.rest.len())?;
        place.go(piece.kind)?;
        rest = piece.rest;
    }
}

/// The tokens of a text of at most 16,384 bytes, in time that is linear in it.
pub fn lex<'t>(alloc: Global, text: &'t [u8]) -> Result<Tokens<'t>, LexStop>
    requires { length text.now ≤ 16384 }
    ensures text { IfOk result (λ t. t.text ≡ text.now) }
    ensures tokens { IfOk result (λ t. IsTokensOf text.now t.list) }
    ensures in_order { IfOk result (λ t. AreInOrder 0 t.list (length text.now)) }
    ensures not_utf8 { (at : ℕ) → result ≡ Err (LexStop.NotUtf8 at) → ¬ (IsUtf8 text.now) }
    ensures longest { (at : ℕ) → result ≡ Err (LexStop.NotUtf8 at) → IsValidUpTo text.now at }
    ensures fault { (f : Fault) (at : ℕ) → result ≡ Err (stop_of f at) → IsFirstFault text.now f at }
    ensures utf8 { (f : Fault) (at : ℕ) → result ≡ Err (stop_of f at) → IsUtf8 text.now }

    // The other way round: only want of memory can stand in place of what is due.
    ensures due_tokens { (list : List Token) → IsTokensOf text.now list → Reads result list }
    ensures due_not_utf8 { (at : ℕ) → IsValidUpTo text.now at → Refuses result (LexStop.NotUtf8 at) }
    ensures due_fault { (f : Fault) (at : ℕ) → IsUtf8 text.now → IsFirstFault text.now f at →
        Refuses result (stop_of f at) }
{
    if let Err(e) = std::str::from_utf8(text) {
        return Err(LexStop::NotUtf8 {
            at: e.valid_up_to(),
        });
    }
    let list = cut(alloc, text)?;
    Ok(Tokens::new(text, list))
}
