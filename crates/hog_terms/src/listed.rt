//! What stands between the items of lists and after them.

ghost use Rattle.std.specs.Prelude.{◌≡◌, [], option_map, IfSome};
ghost use Rattle.hog_terms.specs.Marks.{after_comma};
ghost use Rattle.hog_terms.specs.Listed.{shut_of, comma_of, follow_of, follows, FollowsUnnamed, StandsAs, StandsUnnamed};
ghost use Rattle.hog_terms.specs.View.{left, IsPlaced};

use crate::cursor::next;
use crate::marks::{close, close_brace, close_bracket, comma};
use crate::term::Term;
use hog_grammar::Tokens;

/// The mark that closes a list.
#[derive(Clone, Copy, Debug, PartialEq, Eq)]
pub enum Closer {
    Parenthesis,
    Bracket,
    Brace,
}

/// What follows an item of a list: another item at that index, the list's end before that index, or neither.
#[derive(Clone, Copy, Debug, PartialEq, Eq)]
pub enum Follow {
    More(usize),
    End(usize),
    Neither,
}

/// What stands in a template: characters, the beginning of a hole or the template's end, each with the index
/// after it, or none of these.
#[derive(Clone, Copy, Drop)]
pub enum PartMark<'t> {
    Characters(&'t [u8], usize),
    Hole(usize),
    End(usize),
    Neither,
}

/// What stands at an index of a template. Takes no memory.
pub fn part_at<'t>(tokens: &Tokens<'t>, at: usize) -> PartMark<'t>
    ensures value { StandsAs tokens.now result (left tokens.now at) }
    ensures names { StandsUnnamed tokens.now at result }
{
    let Some((term, after)) = next(tokens, at) else {
        return PartMark::Neither;
    };
    match term {
        Term::Characters(bytes) => PartMark::Characters(bytes, after),
        Term::HoleStart => PartMark::Hole(after),
        Term::TemplateEnd => PartMark::End(after),
        _ => PartMark::Neither,
    }
}

/// The index after the mark. Takes no memory.
pub fn closing(tokens: &Tokens, closer: Closer, at: usize) -> Option<usize>
    ensures value { option_map (λ i. left tokens.now i) result ≡ shut_of closer (left tokens.now at) }
    ensures names { IfSome result (λ i. IsPlaced [] tokens.now at i) }
{
    match closer {
        Closer::Parenthesis => close(tokens, at),
        Closer::Bracket => close_bracket(tokens, at),
        Closer::Brace => close_brace(tokens, at),
    }
}

/// What follows an item. Before a bracket and a brace one more comma may stand. Takes no memory.
pub fn following(tokens: &Tokens, closer: Closer, at: usize) -> Follow
    ensures value { follow_of tokens.now result ≡ follows (comma_of closer) (shut_of closer) (left tokens.now at) (after_comma (left tokens.now at)) }
    ensures names { FollowsUnnamed tokens.now at result }
{
    let Some(after) = comma(tokens, at) else {
        return match closing(tokens, closer, at) {
            Some(end) => Follow::End(end),
            None => Follow::Neither,
        };
    };
    match closer {
        Closer::Parenthesis => Follow::More(after),
        Closer::Bracket | Closer::Brace => match closing(tokens, closer, after) {
            Some(end) => Follow::End(end),
            None => Follow::More(after),
        },
    }
}
