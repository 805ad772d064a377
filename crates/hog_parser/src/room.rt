//! The knot: expressions and statements hold each other. So each of the two readers here leads to the other, at a height of
//! one less; all other readers stand below, proved for anything that reads the parts of a form.

ghost use Rattle.std.specs.Prelude.{◌≡◌, ℕ, ◌≤◌, IfOk};
ghost use Rattle.hog_tree.specs.View.{exp_of, stm_of};
ghost use Rattle.hog_terms.specs.View.{left};
ghost use Rattle.hog_reading.specs.ReadStatements.{readers};
ghost use Rattle.hog_reading.specs.Gives.{Gives};
ghost use Rattle.hog_parser.specs.Room.{rooms};

use hog_expressions::expressions::leveled;
use hog_grammar::Tokens;
use hog_reading::found::{Found, Stop};
use hog_reading::readers::Readers;
use hog_statements::statements::begun;
use hog_tree::tree::{Expr, Stmt};
use std::alloc::{AllocError, Global};

/// Levels within one another, by which reading is proved to end.
#[derive(Drop)]
pub enum Room {
    Out,
    More(Box<Room>),
}

impl Room {
    /// So many levels.
    pub fn of(alloc: Global, levels: u32) -> Result<Room, AllocError>
        ensures { IfOk result (λ r. rooms r ≡ levels) }
    {
        let mut room = Room::Out;
        for _ in 0..levels {
            room = Room::More(Box::new(alloc, room)?);
        }
        Ok(room)
    }
}

impl Readers for Room {
    ghost levels = { rooms };

    #[cycle(reading)]
    #[tactic(auto, using(hog_reading::proofs::Unfold::expression_none))]
    fn expression(
        &self,
        alloc: Global,
        tokens: &Tokens,
        room: u32,
        level: u32,
        at: usize,
    ) -> Result<Found<Expr>, Stop> {
        if room == 0 {
            return Err(Stop::TooNested(at));
        }
        match self {
            Room::Out => Err(Stop::TooNested(at)),
            Room::More(below) => leveled(below, alloc, tokens, room, level, at),
        }
    }

    #[cycle(reading)]
    #[tactic(auto, using(hog_reading::proofs::Unfold::statement_one, hog_reading::proofs::Unfold::statement_none))]
    fn statement(
        &self,
        alloc: Global,
        tokens: &Tokens,
        room: u32,
        at: usize,
    ) -> Result<Found<Stmt>, Stop> {
        if room == 0 {
            return Err(Stop::TooNested(at));
        }
        match self {
            Room::Out => Err(Stop::TooNested(at)),
            Room::More(below) => begun(below, alloc, tokens, room - 1, at),
        }
    }
}
