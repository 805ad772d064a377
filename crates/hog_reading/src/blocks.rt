//! Statements in braces.

ghost use Rattle.std.specs.Prelude.{◌≡◌, ◌<◌, ◌≤◌, ◌+◌, length, IfOk, true};
ghost use Rattle.hog_grammar.specs.Forms.{ends_block};
ghost use Rattle.hog_tree.specs.View.{stm_of};
ghost use Rattle.hog_reading.specs.Read.{several, braced};
ghost use Rattle.hog_reading.specs.ReadStatements.{readers, block};
ghost use Rattle.hog_terms.specs.View.{left, IsPlaced};
ghost use Rattle.hog_reading.specs.Gives.{Gives, stmts_of};
ghost use Rattle.hog_reading.specs.NamesOf.{stmts_names};

use crate::found::{Found, Stop};
use crate::readers::Readers;
use hog_grammar::Tokens;
use hog_terms::marks::{close_brace, ends_block, open_brace, remaining, semi};
use hog_tree::tree::Stmts;
use std::alloc::Global;

/// Statements in braces.
pub fn block<R: Readers>(
    again: &R,
    alloc: Global,
    tokens: &Tokens,
    room: u32,
    at: usize,
) -> Result<Found<Stmts>, Stop>
    requires few { room < 100 }
    requires deep { room ≤ R.levels again.now }
    ensures low { IfOk result (λ f. f.height ≤ room) }
    ensures gives { Gives stmts_of tokens.now result (block (readers room) (left tokens.now at)) }
    ensures places { IfOk result (λ f. IsPlaced (stmts_names f.tree) tokens.now at f.at) }
{
    match open_brace(tokens, at) {
        Some(after) => braced(again, alloc, tokens, room, after),
        None => Err(Stop::Syntax(at)),
    }
}

/// Statements and the brace after them.
#[tactic(auto, unfolding(crate::specs::Read::braced))]
pub fn braced<R: Readers>(
    again: &R,
    alloc: Global,
    tokens: &Tokens,
    room: u32,
    at: usize,
) -> Result<Found<Stmts>, Stop>
    requires few { room < 100 }
    requires deep { room ≤ R.levels again.now }
    ensures low { IfOk result (λ f. f.height ≤ room) }
    ensures gives { Gives stmts_of tokens.now result (braced (readers room).statement (left tokens.now at)) }
    ensures places { IfOk result (λ f. IsPlaced (stmts_names f.tree) tokens.now at f.at) }
{
    let body = several(again, alloc, tokens, room, at)?;
    match close_brace(tokens, body.at) {
        Some(at) => Ok(Found {
            tree: body.tree,
            height: body.height,
            at,
        }),
        None => Err(Stop::Syntax(body.at)),
    }
}

/// Statements up to a closing brace or the end of the text.
pub fn several<R: Readers>(
    again: &R,
    alloc: Global,
    tokens: &Tokens,
    room: u32,
    at: usize,
) -> Result<Found<Stmts>, Stop>
    requires few { room ≤ 100 }
    requires deep { room ≤ R.levels again.now }
    ensures low { IfOk result (λ f. f.height ≤ room) }
    ensures gives { Gives stmts_of tokens.now result (several (readers room).statement (length (left tokens.now at) + 1) (left tokens.now at)) }
    ensures ends { IfOk result (λ f. ends_block (left tokens.now f.at) ≡ true) }
    ensures places { IfOk result (λ f. IsPlaced (stmts_names f.tree) tokens.now at f.at) }
{
    let mut list = Vec::new(alloc);
    let mut height = 0;
    let mut begin = at;
    'statements: for _ in 0..remaining(tokens, at) + 1 {
        if let Some(after) = semi(tokens, begin) {
            begin = after;
            continue 'statements;
        }
        if ends_block(tokens, begin) {
            return Ok(Found {
                tree: Stmts { list },
                height,
                at: begin,
            });
        }
        let stmt = again.statement(alloc, tokens, room, begin)?;
        list.push(stmt.tree)?;
        height = height.max(stmt.height);
        begin = stmt.at;
    }
    Err(Stop::Syntax(begin))
}
