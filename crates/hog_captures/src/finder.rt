//! The words of a function that the frame knows in which it is made.

ghost use Rattle.std.specs.Prelude.{◌≡◌, List, [], ◌∷◌, length, OnOk};
ghost use Rattle.std.specs.Option.{option_map};
ghost use Rattle.hog_tree.specs.Plain.{Word};
ghost use Rattle.hog_tree.specs.View.{words_of};
ghost use Rattle.hog_captures.specs.Frees.{is_among};
ghost use Rattle.hog_captures.specs.Finding.{Finding, nothing_found, Finds, bind, bind_all, bind_name};
ghost use Rattle.hog_captures.specs.View.{last_first};

use crate::captured::Captured;
use crate::frame::Frame;
use hog_tree::tree::{Named, Names};
use hog_value::HogText;
use std::alloc::{AllocError, Global};
use std::marker::Model;

/// What is known while a function is gone through.
#[derive(Drop)]
pub struct Finder<'f, 't> {
    frame: &'f Frame<'t>,
    /// The names that are declared around, within the function, from the outside in.
    bound: Vec<&'t HogText>,
    found: Captured<'t>,
}

impl<'f, 't> Model for Finder<'f, 't> {
    ghost use Rattle.hog_captures.specs.Finding.{Finding};
    ghost use Rattle.hog_captures.specs.View.{last_first};

    ghost Value = { Finding };

    ghost view = { λ f. record { frame = f.frame.now; bound = last_first f.bound.items; found = f.found } };
}

// Whether the word is one of these names.
fn is_bound(names: &[&HogText], word: &HogText) -> bool
    ensures { result ≡ is_among word.now (last_first names.now) }
{
    let mut rest = names;
    while let [outer @ .., name] = rest {
        if **name == *word {
            return true;
        }
        rest = outer;
    }
    false
}

impl<'f, 't> Finder<'f, 't> {
    /// Takes no memory.
    pub fn new(alloc: Global, frame: &'f Frame<'t>) -> Finder<'f, 't>
        ensures { result ≡ nothing_found frame.now }
    {
        Finder {
            frame,
            bound: Vec::new(alloc),
            found: Captured::none(alloc),
        }
    }

    /// What was found.
    pub fn into_found(self) -> Captured<'t>
        ensures { result ≡ self.entry.found }
    {
        self.found
    }

    /// A word that stands there: found, where it isn't declared around and the frame knows it.
    pub fn word(&mut self, word: &'t HogText) -> Result<(), AllocError>
        ensures { OnOk result (Finds self.old self.new (word.now ∷ [])) }
    {
        if is_bound(self.bound.as_slice(), word) {
            return Ok(());
        }
        self.found.add(self.frame, word)
    }

    /// How many names are declared around. Takes no memory.
    pub fn depth(&self) -> usize
        ensures { result ≡ length self.now.bound }
    {
        self.bound.len()
    }

    /// Declares a name.
    pub fn bind(&mut self, word: &'t HogText) -> Result<(), AllocError>
        ensures { OnOk result (self.new ≡ bind word.now self.old) }
    {
        self.bound.push(word)?;
        Ok(())
    }

    /// Declares a name, where there is one.
    pub fn bind_name(&mut self, name: Option<&'t Named>) -> Result<(), AllocError>
        ensures { OnOk result (self.new ≡ bind_name (option_map (λ n. n.now.word) name.entry) self.old) }
    {
        match name {
            Some(name) => self.bind(&name.word),
            None => Ok(()),
        }
    }

    /// Declares names.
    pub fn bind_all(&mut self, names: &'t Names) -> Result<(), AllocError>
        ensures { OnOk result (self.new ≡ bind_all (words_of names.now) self.old) }
    {
        for name in names.items() {
            self.bind(&name.word)?;
        }
        Ok(())
    }

    /// Back to where so many names were declared. Takes no memory.
    pub fn unbind(&mut self, depth: usize)
        ensures { (f : Finding) (names : List Word) → self.old ≡ bind_all names f → depth ≡ length f.bound → self.new ≡ f }
    {
        self.bound.truncate(depth);
    }
}
