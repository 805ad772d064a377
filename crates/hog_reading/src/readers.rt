//! What reads the parts of a form. Each reader is proved for anything that does.

ghost use Rattle.std.specs.Prelude.{◌≡◌, ℕ, ◌≤◌, IfOk};
ghost use Rattle.hog_tree.specs.Names.{exp_names, stm_names};
ghost use Rattle.hog_tree.specs.View.{exp_of, stm_of};
ghost use Rattle.hog_terms.specs.View.{left, IsPlaced};
ghost use Rattle.hog_reading.specs.ReadStatements.{readers};
ghost use Rattle.hog_reading.specs.Gives.{Gives};

use crate::found::{Found, Stop};
use hog_grammar::Tokens;
use hog_tree::tree::{Expr, Stmt};
use std::alloc::Global;

/// What reads the parts of a form. `room` is 100 at most.
pub trait Readers {
    /// The greatest height of what it reads.
    ghost levels: { Self → ℕ };

    /// An expression of this level and of height `room` at most.
    fn expression(
        &self,
        alloc: Global,
        tokens: &Tokens,
        room: u32,
        level: u32,
        at: usize,
    ) -> Result<Found<Expr>, Stop>
        requires few { room ≤ 100 }
        requires deep { room ≤ levels self.now }
        ensures low { IfOk result (λ f. f.height ≤ room) }
        ensures gives { Gives exp_of tokens.now result ((readers room).expression level (left tokens.now at)) }
        ensures places { IfOk result (λ f. IsPlaced (exp_names f.tree) tokens.now at f.at) };

    /// A statement of height `room` at most that doesn't begin with `;`.
    fn statement(
        &self,
        alloc: Global,
        tokens: &Tokens,
        room: u32,
        at: usize,
    ) -> Result<Found<Stmt>, Stop>
        requires few { room ≤ 100 }
        requires deep { room ≤ levels self.now }
        ensures low { IfOk result (λ f. f.height ≤ room) }
        ensures gives { Gives stm_of tokens.now result ((readers room).statement (left tokens.now at)) }
        ensures places { IfOk result (λ f. IsPlaced (stm_names f.tree) tokens.now at f.at) };
}

impl<R: Readers> Readers for Box<R> {
    ghost levels = { λ b. R.levels b.value };

    fn expression(
        &self,
        alloc: Global,
        tokens: &Tokens,
        room: u32,
        level: u32,
        at: usize,
    ) -> Result<Found<Expr>, Stop> {
        R::expression(self, alloc, tokens, room, level, at)
    }

    fn statement(
        &self,
        alloc: Global,
        tokens: &Tokens,
        room: u32,
        at: usize,
    ) -> Result<Found<Stmt>, Stop> {
        R::statement(self, alloc, tokens, room, at)
    }
}
