//! A scope.

ghost use Rattle.std.specs.Prelude.{◌≡◌, [], ◌∷◌, ◌++◌, OnOk, OnErr, IfOk};

use hog_value::HogText;
use indexmap::IndexMap;
use std::alloc::{AllocError, Global};
use std::convert::AsStr;
use std::marker::Model;

/// A name that a scope declares.
#[derive(Clone, Copy, Debug, PartialEq, Eq)]
pub struct Variable {
    /// The number of its declaration, counted from 0 in the order of the source.
    pub number: usize,
    /// Whether the words that follow see it.
    pub is_seen: bool,
}

/// The names that a scope declares. Contracts see the list, in order.
#[derive(Drop)]
pub struct Scope<'t> {
    names: IndexMap<&'t str, Variable>,
}

impl<'t> Model for Scope<'t> {
    ghost use Rattle.std.specs.Prelude.{List, ℕ, map};
    ghost use Rattle.hog_scope.specs.declared.scope.Variable.{Variable};

    ghost Value = { List (List ℕ × Variable) };

    ghost view = { λ s. map (λ e. (e.0.now, e.1)) s.names.entries };
}

impl<'t> Scope<'t> {
    ghost use Rattle.std.specs.Prelude.{◌≡◌, [], None, OnOk, OnErr};
    ghost use Rattle.hog_scope.specs.Scopes.{variable_in, with_declared, with_seen, seen_or};

    /// Takes no memory.
    pub fn new(alloc: Global) -> Scope<'t>
        ensures { result ≡ [] }
    {
        Scope {
            names: IndexMap::new(alloc),
        }
    }

    /// What it has under a word. Takes no memory.
    pub fn variable(&self, word: &HogText) -> Option<Variable>
        ensures { result ≡ variable_in self.now word.now }
    {
        self.names.get(word.as_str()).copied()
    }

    /// The number of its variable under a word, where it is seen. Takes no memory.
    pub fn seen(&self, word: &HogText) -> Option<usize>
        ensures { result ≡ seen_or (variable_in self.now word.now) None }
    {
        match self.variable(word) {
            Some(variable) if variable.is_seen => Some(variable.number),
            _ => None,
        }
    }

    /// Declares a name, which isn't seen yet.
    pub fn declare(&mut self, word: &'t HogText, number: usize) -> Result<(), AllocError>
        requires { variable_in self.old word.now ≡ None }
        ensures ok { OnOk result (self.new ≡ with_declared self.old word.now number) }
    {
        let is_seen = false;
        self.names
            .insert(word.as_str(), Variable { number, is_seen })?;
        Ok(())
    }

    /// Makes its name seen. Takes no memory.
    pub fn bind(&mut self, word: &HogText)
        ensures { self.new ≡ with_seen self.old word.now }
    {
        if let Some(variable) = self.names.get_mut(word.as_str()) {
            variable.is_seen = true;
        }
    }
}
