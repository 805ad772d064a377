//! The parser.

ghost use Rattle.std.specs.Prelude.{◌≡◌, ◌≤◌, ◌<◌, ◌*◌, ℕ, length, IfOk};
ghost use Rattle.hog_tree.specs.Plain.{Stms as PlainTree};
ghost use Rattle.hog_tree.specs.Names.{tree_names};
ghost use Rattle.hog_tree.specs.Nesting.{stms_nesting};
ghost use Rattle.hog_tree.specs.View.{tree_of};
ghost use Rattle.hog_grammar.specs.Names.{names_in};
ghost use Rattle.hog_grammar.specs.Terminal.{terminals};
ghost use Rattle.hog_grammar.specs.Spelling.{Spells};
ghost use Rattle.hog_tree.specs.Count.{of_stms};
ghost use Rattle.hog_reading.specs.ReadStatements.{program};
ghost use Rattle.hog_terms.specs.View.{left};
ghost use Rattle.hog_parser.specs.Before.{tokens_before};
ghost use Rattle.hog_reading.specs.Gives.{Gives, stmts_of};
ghost use Rattle.hog_reading.specs.NamesOf.{stmts_names};

use crate::room::Room;
use hog_grammar::Tokens;
use hog_reading::blocks::several;
use hog_reading::found::{Found, Stop};
use hog_terms::marks::close_brace;
use hog_tree::tree::{Stmts, Tree};
use std::alloc::{AllocError, Global};

/// The greatest height of a program.
const MOST_HEIGHT: u32 = 100;

/// Why there is no tree. `at` is the place of a byte, counted from 0.
#[derive(Clone, Copy, Debug, PartialEq, Eq)]
pub enum ParseStop {
    /// The first token that can't go on, or the end of the text.
    Syntax { at: usize },
    /// The first token at which a height of 100 is passed, or the end of the text.
    TooNested { at: usize },
    OutOfMemory,
}

impl From<AllocError> for ParseStop {
    ghost from_gives = { λ _ e. e ≡ OutOfMemory };

    ghost use Rattle.hog_parser.specs.declared.parsing.ParseStop.TheVariants.{OutOfMemory};

    fn from(_error: AllocError) -> Self {
        ParseStop::OutOfMemory
    }
}

/// The statements that all tokens spell.
#[tactic(auto, unfolding(hog_reading::specs::ReadStatements::program))]
fn whole(alloc: Global, tokens: &Tokens) -> Result<Found<Stmts>, Stop>
    ensures gives { Gives stmts_of tokens.now result (program 100 (left tokens.now 0)) }
    ensures names { IfOk result (λ f. stmts_names f.tree ≡ names_in tokens.now.text tokens.now.list) }
{
    let levels = Room::of(alloc, MOST_HEIGHT)?;
    let stmts = several(&levels, alloc, tokens, MOST_HEIGHT, 0)?;
    match close_brace(tokens, stmts.at) {
        Some(_) => Err(Stop::Syntax(stmts.at)),
        None => Ok(stmts),
    }
}

/// The place of a token, or of the end of the text. Takes no memory.
#[tactic(auto, using(crate::proofs::Ends::all_ended))]
fn place_of(tokens: &Tokens, at: usize) -> usize
    ensures token { at < length tokens.now.list → at ≤ tokens_before result tokens.now.list }
    ensures end { length tokens.now.list ≤ at → length tokens.now.list ≤ tokens_before result tokens.now.list }
{
    let list = tokens.list();
    if at < list.len() {
        list[at].from as usize
    } else {
        tokens.text().len()
    }
}

/// The tree of a program of height 100 at most.
pub fn parse(alloc: Global, tokens: &Tokens) -> Result<Tree, ParseStop>
    ensures found { IfOk result (λ t. (h : ℕ) × (h ≤ 100) × Spells (tree_of t) (terminals tokens.now.text tokens.now.list) h) }
    ensures count { IfOk result (λ t. of_stms (tree_of t) ≤ 2 * length tokens.now.list) }
    ensures nesting { IfOk result (λ t. stms_nesting (tree_of t) ≤ 100) }

    // The words that name something, each with its place, are those of the text.
    ensures names { IfOk result (λ t. tree_names t ≡ names_in tokens.now.text tokens.now.list) }
    ensures syntax { (at : ℕ) → result ≡ Err (ParseStop.Syntax at) → (tree : PlainTree) (h : ℕ) → ¬ (Spells tree (terminals tokens.now.text tokens.now.list) h) }
    ensures nested { (at : ℕ) → result ≡ Err (ParseStop.TooNested at) → (tree : PlainTree) (h : ℕ) → Spells tree (terminals tokens.now.text tokens.now.list) h → 100 < h }
    ensures after_forty { (at : ℕ) → result ≡ Err (ParseStop.TooNested at) → 40 ≤ tokens_before at tokens.now.list }
{
    match whole(alloc, tokens) {
        Ok(found) => Ok(Tree { stmts: found.tree }),
        Err(stop) => match stop {
            Stop::Syntax(index) => Err(ParseStop::Syntax {
                at: place_of(tokens, index),
            }),
            Stop::TooNested(index) => Err(ParseStop::TooNested {
                at: place_of(tokens, index),
            }),
            Stop::OutOfMemory => Err(ParseStop::OutOfMemory),
        },
    }
}
