//! Where a piece can stand.

ghost use Rattle.std.specs.Prelude.{◌≡◌, ◌+◌, ◌<◌, ◌^◌, [], IfOk};
ghost use Rattle.hog_grammar.specs.Pieces.{Code};
ghost use Rattle.hog_tokens.specs.Reading.{spot_of, is_outside, moved, open_braces, holes_of};

use crate::pieces::{Kind, Spot};
use std::alloc::{AllocError, Global};
use std::marker::Model;

/// In code, or among the characters of a template; and the holes that are open round it.
#[derive(Drop)]
pub struct Place {
    template: bool,
    /// For each open hole, the innermost last, how many braces are open in it.
    holes: Vec<u32>,
}

impl Model for Place {
    ghost use Rattle.std.specs.Prelude.{reverse};
    ghost use Rattle.hog_grammar.specs.Pieces.{Place};
    ghost use Rattle.hog_tokens.specs.Reading.{place_of};

    ghost Value = { Place };

    ghost view = { λ p. place_of p.template (reverse p.holes.items) };
}

impl Place {
    /// In code outside of templates. Takes no memory.
    pub fn new(alloc: Global) -> Place
        ensures { result ≡ Code [] }
    {
        Place {
            template: false,
            holes: Vec::new(alloc),
        }
    }

    /// Whether it is in code outside of templates.
    pub fn is_outside(&self) -> bool
        ensures { result ≡ is_outside self.now }
    {
        !self.template && self.holes.is_empty()
    }

    pub fn spot(&self) -> Spot
        ensures { result ≡ spot_of self.now }
    {
        if self.template {
            return Spot::Template;
        }
        match self.holes.last() {
            Some(0) => Spot::Hole,
            _ => Spot::Code,
        }
    }

    /// Goes past a piece of that kind.
    pub fn go(&mut self, kind: Kind) -> Result<(), AllocError>
        requires { open_braces (holes_of self.old) + 1 < 2 ^ 32 }
        ensures { IfOk result (λ _. self.new ≡ moved kind self.old) }
    {
        match kind {
            Kind::Gap | Kind::Word | Kind::Number | Kind::Text | Kind::Mark | Kind::Characters => {}
            Kind::OpenBrace => {
                if let Some(n) = self.holes.pop() {
                    self.holes.push(n + 1)?;
                }
                self.template = false;
            }
            Kind::CloseBrace => {
                if let Some(n) = self.holes.pop() {
                    self.holes.push(n.saturating_sub(1))?;
                }
                self.template = false;
            }
            Kind::TemplateStart => self.template = true,
            Kind::TemplateEnd => self.template = false,
            Kind::HoleStart => {
                self.holes.push(0)?;
                self.template = false;
            }
            Kind::HoleEnd => {
                let _ = self.holes.pop();
                self.template = true;
            }
        }
        Ok(())
    }
}
