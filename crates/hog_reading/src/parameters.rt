//! The names of a function's parameters.

ghost use Rattle.std.specs.Prelude.{◌≡◌, ◌≤◌, false, IfOk};
ghost use Rattle.hog_tree.specs.View.{words_of};
ghost use Rattle.hog_terms.specs.Marks.{after_close};
ghost use Rattle.hog_terms.specs.View.{left, IsPlaced};
ghost use Rattle.hog_reading.specs.Read.{listing, name};
ghost use Rattle.hog_reading.specs.Gives.{Gives};

use crate::found::{Found, Stop};
use hog_grammar::Tokens;
use hog_terms::listed::{Closer, Follow, following};
use hog_terms::marks::{close, remaining};
use hog_terms::words::name;
use hog_tree::tree::Names;
use std::alloc::Global;

/// Names with commas between them, and the parenthesis that closes them.
pub fn names(alloc: Global, tokens: &Tokens, at: usize) -> Result<Found<Names>, Stop>
    ensures low { IfOk result (λ f. f.height ≡ 0) }
    ensures gives { Gives words_of tokens.now result (listing name false after_close (left tokens.now at)) }
    ensures places { IfOk result (λ f. IsPlaced f.tree tokens.now at f.at) }
{
    let mut list = Vec::new(alloc);
    if let Some(at) = close(tokens, at) {
        return Ok(Found {
            tree: Names::new(list),
            height: 0,
            at,
        });
    }
    let mut begin = at;
    'items: for _ in 0..remaining(tokens, at) {
        let Some((word, after)) = name(alloc, tokens, begin)? else {
            return Err(Stop::Syntax(begin));
        };
        list.push(word)?;
        match following(tokens, Closer::Parenthesis, after) {
            Follow::More(at) => begin = at,
            Follow::End(at) => {
                return Ok(Found {
                    tree: Names::new(list),
                    height: 0,
                    at,
                });
            }
            Follow::Neither => return Err(Stop::Syntax(after)),
        }
    }
    Err(Stop::Syntax(begin))
}
