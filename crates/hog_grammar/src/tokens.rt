//! A text with its tokens.

ghost use Rattle.std.specs.Prelude.{◌≡◌, ◌≤◌, length, slice_range};
ghost use Rattle.hog_grammar.specs.Pieces.{IsTokensOf, AreInOrder};
ghost use Rattle.hog_grammar.specs.Terminal.{AreReadable};

use crate::token::Token;
use std::marker::Model;

/// A text of at most 16,384 bytes, which it borrows, and the list of its tokens.
#[derive(Drop)]
pub struct Tokens<'t> {
    text: &'t [u8],
    list: Vec<Token>,
}

impl<'t> Model for Tokens<'t> {
    ghost use Rattle.std.specs.Prelude.{◌≤◌, length};
    ghost use Rattle.hog_grammar.specs.Pieces.{Lexed, IsTokensOf};

    ghost Value = { Lexed };

    ghost view = { λ t. record { text = t.text.now; list = t.list.items } };

    ghost invariant = { λ t. IsTokensOf t.text.now t.list.items × (length t.text.now ≤ 16384) };
}

impl<'t> Tokens<'t> {
    /// Takes no memory.
    pub fn new(text: &'t [u8], list: Vec<Token>) -> Tokens<'t>
        requires tokens { IsTokensOf text.now list.items }
        requires short { length text.now ≤ 16384 }
        ensures { result ≡ record { text = text.now; list = list.items } }
    {
        Tokens { text, list }
    }

    /// Takes no memory.
    pub fn text(&self) -> &'t [u8]
        ensures value { result.now ≡ self.now.text }
        ensures short { length result.now ≤ 16384 }
    {
        self.text
    }

    /// Takes no memory.
    #[tactic(auto, using(crate::proofs::Sizes::in_order, crate::proofs::Meaning::readable))]
    pub fn list(&self) -> &[Token]
        ensures value { result.now ≡ self.now.list }
        ensures tokens { IsTokensOf self.now.text self.now.list }
        ensures in_order { AreInOrder 0 self.now.list (length self.now.text) }
        ensures readable { AreReadable self.now.text self.now.list }
    {
        self.list.as_slice()
    }

    /// The bytes of a token. Takes no memory.
    pub fn bytes(&self, token: Token) -> &'t [u8]
        requires ordered { token.from ≤ token.to }
        requires within { token.to ≤ length self.now.text }
        ensures { result.now ≡ slice_range self.now.text token.from token.to }
    {
        &self.text[token.from as usize..token.to as usize]
    }
}
