//! Words, numbers and texts as trees hold them.

ghost use Rattle.std.specs.Prelude.{◌≡◌, [], ◌∷◌, ◌++◌, true, Some, IfOk, IfSome, option_map};
ghost use Rattle.std.specs.Str.{IsUtf8};
ghost use Rattle.hog_tree.specs.View.{option_word_of};
ghost use Rattle.hog_tree.specs.View as v;
ghost use Rattle.hog_terms.specs.View.{IsReadable};
ghost use Rattle.hog_terms.specs.Marks.{word_of, after_name, after_word, after_function, after_catch, after_bound, after_first, after_key};
ghost use Rattle.hog_terms.specs.Bound.{names_of};
ghost use Rattle.hog_terms.specs.View.{left, terminal_is, names_from, named_from, place_at, IsPlaced};

use crate::cursor::next;
use crate::literals::text_of;
use crate::marks::{close, in_word, open};
use crate::term::Term;
use hog_grammar::Tokens;
use hog_tree::tree::Named;
use hog_value::HogText;
use std::alloc::{AllocError, Global};

/// The names of a `for .. in`.
#[derive(Drop)]
pub struct Bound {
    pub key: Option<Named>,
    pub value: Named,
}

/// The place of the first byte of a token.
#[tactic(auto, using(crate::proofs::Place::place_of_token, crate::proofs::Place::place_of_none))]
fn place(tokens: &Tokens, at: usize) -> u32
    ensures { result ≡ place_at tokens.now at }
{
    let list = tokens.list();
    if at < list.len() { list[at].from } else { 0 }
}

/// The name that stands at `at` with these bytes.
pub fn name_of(alloc: Global, tokens: &Tokens, at: usize, bytes: &[u8]) -> Result<Named, AllocError>
    requires { IsUtf8 bytes.now }
    ensures word { IfOk result (λ n. v.word_of n ≡ bytes.now) }
    ensures place { IfOk result (λ n. n.at ≡ place_at tokens.now at) }
{
    Ok(Named {
        at: place(tokens, at),
        word: text_of(alloc, bytes)?,
    })
}

/// The name at the front, and the index after it.
pub fn name(alloc: Global, tokens: &Tokens, at: usize) -> Result<Option<(Named, usize)>, AllocError>
    ensures value { IfOk result (λ o. option_map (λ x. (v.word_of x.0, left tokens.now x.1)) o ≡ after_name (left tokens.now at)) }
    ensures names { IfOk result (λ o. IfSome o (λ x. IsPlaced (x.0 ∷ []) tokens.now at x.1)) }
{
    match next(tokens, at) {
        Some((Term::Word(bytes), after)) => {
            let name = name_of(alloc, tokens, at, bytes)?;
            Ok(Some((name, after)))
        }
        _ => Ok(None),
    }
}

/// The name of a function, and the index after the parenthesis that follows it.
pub fn function_name(
    alloc: Global,
    tokens: &Tokens,
    at: usize,
) -> Result<Option<(Named, usize)>, AllocError>
    ensures value { IfOk result (λ o. option_map (λ x. (v.word_of x.0, left tokens.now x.1)) o ≡ after_function (left tokens.now at)) }
    ensures names { IfOk result (λ o. IfSome o (λ x. IsPlaced (x.0 ∷ []) tokens.now at x.1)) }
{
    let Some((Term::Word(bytes), after)) = next(tokens, at) else {
        return Ok(None);
    };
    let Some(begin) = open(tokens, after) else {
        return Ok(None);
    };
    let name = name_of(alloc, tokens, at, bytes)?;
    Ok(Some((name, begin)))
}

/// `catch` with a name in parentheses, and the index after them.
pub fn catch_name(
    alloc: Global,
    tokens: &Tokens,
    at: usize,
) -> Result<Option<(Named, usize)>, AllocError>
    ensures value { IfOk result (λ o. option_map (λ x. (v.word_of x.0, left tokens.now x.1)) o ≡ after_catch (left tokens.now at)) }
    ensures names { IfOk result (λ o. IfSome o (λ x. IsPlaced (x.0 ∷ []) tokens.now at x.1)) }
{
    let Some((Term::Catch, after)) = next(tokens, at) else {
        return Ok(None);
    };
    let Some(begin) = open(tokens, after) else {
        return Ok(None);
    };
    let Some((Term::Word(bytes), end)) = next(tokens, begin) else {
        return Ok(None);
    };
    let Some(after) = close(tokens, end) else {
        return Ok(None);
    };
    let name = name_of(alloc, tokens, begin, bytes)?;
    Ok(Some((name, after)))
}

/// The second name of a `for .. in` after the first and its comma, with `in`, and the index after it.
fn keyed(
    alloc: Global,
    tokens: &Tokens,
    key: Named,
    at: usize,
) -> Result<Option<(Bound, usize)>, AllocError>
    ensures value { IfOk result (λ o. option_map (λ x. ((option_word_of x.0.key, v.word_of x.0.value), left tokens.now x.1)) o ≡ after_key (v.word_of key) (left tokens.now at)) }
    ensures names { IfOk result (λ o. IfSome o (λ x. names_of x.0 ++ named_from tokens.now x.1 ≡ key ∷ named_from tokens.now at)) }
{
    let Some((Term::Word(bytes), after)) = next(tokens, at) else {
        return Ok(None);
    };
    let Some(end) = in_word(tokens, after) else {
        return Ok(None);
    };
    let value = name_of(alloc, tokens, at, bytes)?;
    let key = Some(key);
    Ok(Some((Bound { key, value }, end)))
}

/// The names of a `for .. in` from `after` on, where its first name ends, with `in`, and the index after it.
fn bound_by(
    alloc: Global,
    tokens: &Tokens,
    first: Named,
    after: usize,
) -> Result<Option<(Bound, usize)>, AllocError>
    ensures value { IfOk result (λ o. option_map (λ x. ((option_word_of x.0.key, v.word_of x.0.value), left tokens.now x.1)) o ≡ after_first (v.word_of first) (left tokens.now after)) }
    ensures names { IfOk result (λ o. IfSome o (λ x. names_of x.0 ++ named_from tokens.now x.1 ≡ first ∷ named_from tokens.now after)) }
{
    let Some((term, at)) = next(tokens, after) else {
        return Ok(None);
    };
    match term {
        Term::In => Ok(Some((
            Bound {
                key: None,
                value: first,
            },
            at,
        ))),
        Term::Comma => keyed(alloc, tokens, first, at),
        _ => Ok(None),
    }
}

/// `let`, the names of a `for .. in`, and `in`, and the index after it.
pub fn bound_names(
    alloc: Global,
    tokens: &Tokens,
    at: usize,
) -> Result<Option<(Bound, usize)>, AllocError>
    ensures value { IfOk result (λ o. option_map (λ x. ((option_word_of x.0.key, v.word_of x.0.value), left tokens.now x.1)) o ≡ after_bound (left tokens.now at)) }
    ensures names { IfOk result (λ o. IfSome o (λ x. IsPlaced (names_of x.0) tokens.now at x.1)) }
{
    let Some((Term::Let, begin)) = next(tokens, at) else {
        return Ok(None);
    };
    let Some((Term::Word(bytes), after)) = next(tokens, begin) else {
        return Ok(None);
    };
    let first = name_of(alloc, tokens, begin, bytes)?;
    bound_by(alloc, tokens, first, after)
}

fn reserved(alloc: Global, word: &str) -> Result<Option<HogText>, AllocError>
    ensures { IfOk result (λ o. o ≡ Some word.now) }
{
    Ok(Some(HogText::from_string(String::from_str(alloc, word)?)))
}

/// The text of a word, reserved or not.
fn word_text(alloc: Global, term: Term) -> Result<Option<HogText>, AllocError>
    requires { IsReadable term }
    ensures { IfOk result (λ o. o ≡ word_of (terminal_is term.entry)) }
{
    match term {
        Term::Word(bytes) => Ok(Some(text_of(alloc, bytes)?)),
        Term::Let => reserved(alloc, "let"),
        Term::Fun => reserved(alloc, "fun"),
        Term::Return => reserved(alloc, "return"),
        Term::Throw => reserved(alloc, "throw"),
        Term::Try => reserved(alloc, "try"),
        Term::Catch => reserved(alloc, "catch"),
        Term::If => reserved(alloc, "if"),
        Term::Else => reserved(alloc, "else"),
        Term::While => reserved(alloc, "while"),
        Term::For => reserved(alloc, "for"),
        Term::In => reserved(alloc, "in"),
        Term::Not => reserved(alloc, "not"),
        Term::And => reserved(alloc, "and"),
        Term::Or => reserved(alloc, "or"),
        Term::True => reserved(alloc, "true"),
        Term::False => reserved(alloc, "false"),
        Term::Null => reserved(alloc, "null"),
        _ => Ok(None),
    }
}

/// The word at the front, reserved or not, and the index after it.
pub fn property(
    alloc: Global,
    tokens: &Tokens,
    at: usize,
) -> Result<Option<(HogText, usize)>, AllocError>
    ensures value { IfOk result (λ o. option_map (λ x. (x.0, left tokens.now x.1)) o ≡ after_word (left tokens.now at)) }
    ensures names { IfOk result (λ o. IfSome o (λ x. names_from true tokens.now at ≡ named_from tokens.now x.1)) }
{
    let Some((term, after)) = next(tokens, at) else {
        return Ok(None);
    };
    match word_text(alloc, term)? {
        Some(text) => Ok(Some((text, after))),
        None => Ok(None),
    }
}
