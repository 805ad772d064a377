//! The next token of a text, and what follows it.

ghost use Rattle.std.specs.Prelude.{◌≡◌, ◌≤◌, ◌+◌, length, option_map, IfSome, true, false};
ghost use Rattle.hog_grammar.specs.Names.{with_name, is_dot};
ghost use Rattle.hog_terms.specs.View.{IsReadable};
ghost use Rattle.hog_terms.specs.View.{terminal_is, left, uncons, names_from, named_from, place_at};

use crate::term::{Term, meaning};
use hog_grammar::Tokens;

/// The token at that index, and the index after it. Takes no memory.
#[tactic(auto, using(crate::proofs::Place::left_at, crate::proofs::Place::left_end, crate::proofs::Place::order_at, crate::proofs::Place::readable_at, crate::proofs::Place::names_at))]
pub fn next<'t>(tokens: &Tokens<'t>, at: usize) -> Option<(Term<'t>, usize)>
    ensures value { option_map (λ x. (terminal_is x.0, left tokens.now x.1)) result ≡ uncons (left tokens.now at) }
    ensures readable { IfSome result (λ x. IsReadable x.0) }
    ensures names { IfSome result (λ x. named_from tokens.now at ≡ with_name false (terminal_is x.0) (place_at tokens.now at) (names_from (is_dot (terminal_is x.0)) tokens.now x.1)) }

    // Right after a `.` or `?.`.
    ensures properties { IfSome result (λ x. names_from true tokens.now at ≡ names_from (is_dot (terminal_is x.0)) tokens.now x.1) }
{
    let list = tokens.list();
    if at >= list.len() {
        return None;
    }
    let token = list[at];
    let bytes = tokens.bytes(token);
    Some((meaning(token.kind, bytes), at + 1))
}
