//! The piece of a text that begins it.

ghost use Rattle.std.specs.Prelude.{◌≡◌, ◌≤◌, ◌∷◌, false, nat_lt};
ghost use Rattle.std.specs.Option.{option_map};
ghost use Rattle.hog_grammar.specs.Bytes.{class, is_word, is_digit, in_line, value_from, greatest};
ghost use Rattle.hog_grammar.specs.Pieces.{OfText, OfTemplate};
ghost use Rattle.hog_tokens.specs.View.{quotes_of, run_of, begun_of};
ghost use Rattle.hog_tokens.specs.Reading.{after, during, run_from, block_from, past_pair, begin, begin_code, begin_word, begin_number, begin_text, begin_characters, begin_slash};

use crate::bytes::{Class, Quotes, are_mark, class_at, ends, escapes};
use hog_grammar::Fault;

/// What a piece is, as far as tokens and places go.
#[derive(Clone, Copy, Debug, PartialEq, Eq)]
pub enum Kind {
    /// A blank, a comment, or a byte that begins no piece.
    Gap,
    Word,
    Number,
    Text,
    /// A mark that is no brace.
    Mark,
    OpenBrace,
    CloseBrace,
    TemplateStart,
    Characters,
    HoleStart,
    HoleEnd,
    TemplateEnd,
}

/// Where a piece begins.
#[derive(Clone, Copy, Debug, PartialEq, Eq)]
pub enum Spot {
    Code,
    /// In a hole in which no brace is open, so that `}` ends it.
    Hole,
    Template,
}

/// A piece, what follows it, and its first fault with its distance in bytes from the piece's first.
#[derive(Clone, Copy)]
pub struct Begun<'t> {
    pub kind: Kind,
    pub rest: &'t [u8],
    pub fault: Option<(Fault, usize)>,
}

/// What follows the rest of a word.
fn after_word(text: &[u8]) -> &[u8]
    ensures { result.now ≡ after is_word text.now }
{
    let mut rest = text;
    while let Some((c, tail)) = rest.split_first() {
        match class_at(*c) {
            Class::Letter | Class::Digit => rest = tail,
            _ => return rest,
        }
    }
    rest
}

/// What follows a line comment.
fn after_line(text: &[u8]) -> &[u8]
    ensures { result.now ≡ after in_line text.now }
{
    let mut rest = text;
    while let Some((c, tail)) = rest.split_first() {
        match class_at(*c) {
            Class::LineFeed => return rest,
            _ => rest = tail,
        }
    }
    rest
}

/// What follows a block comment.
fn after_block(text: &[u8]) -> Option<&[u8]>
    ensures { option_map (λ r. r.now) result ≡ block_from false text.now }
{
    let mut rest = text;
    let mut star = false;
    while let Some((c, tail)) = rest.split_first() {
        if star && *c == b'/' {
            return Some(tail);
        }
        star = *c == b'*';
        rest = tail;
    }
    None
}

/// Whether a number of this first digit is too large, and what follows it.
fn number_end(first: u8, text: &[u8]) -> (bool, &[u8])
    ensures large { result.0 ≡ nat_lt greatest (value_from 0 (first ∷ during is_digit text.now)) }
    ensures rest { result.1.now ≡ after is_digit text.now }
{
    let mut rest = text;
    let mut value = u64::from(first.saturating_sub(b'0'));
    let mut large = false;
    while let Some((c, tail)) = rest.split_first() {
        match class_at(*c) {
            Class::Digit => {
                let digit = u64::from(c.saturating_sub(b'0'));
                if !large {
                    if value > (9223372036854775807 - digit) / 10 {
                        large = true;
                    } else {
                        value = 10 * value + digit;
                    }
                }
                rest = tail;
            }
            _ => return (large, rest),
        }
    }
    (large, rest)
}

/// The end of characters in quotes.
#[derive(Clone, Copy)]
pub struct Run<'t> {
    /// From the byte that ends them on.
    pub rest: &'t [u8],
    /// The place of the first backslash that begins no escape.
    pub bad: Option<usize>,
}

/// Where these characters end. Places are counted from `offset` on.
fn run_end(quotes: Quotes, offset: usize, text: &[u8]) -> Option<Run<'_>>
    requires { offset ≤ 1 }
    ensures { option_map run_of result ≡ run_from (quotes_of quotes) offset None text.now }
{
    let mut rest = text;
    let mut bad = None;
    let mut escaped = false;
    let mut at = offset;
    while let Some((c, tail)) = rest.split_first() {
        if escaped {
            escaped = false;
            if !escapes(quotes, *c) && bad.is_none() {
                bad = Some(at - 1);
            }
        } else if ends(quotes, *c) {
            return Some(Run { rest, bad });
        } else if *c == b'\\' {
            escaped = true;
        }
        at += 1;
        rest = tail;
    }
    None
}

fn bad_byte(bad: Option<usize>) -> Option<(Fault, usize)>
    ensures { result ≡ option_map (λ n. (Fault.BadByte, n)) bad }
{
    match bad {
        Some(n) => Some((Fault::BadByte, n)),
        None => None,
    }
}

/// After a slash.
fn slash(rest: &[u8]) -> Option<Begun<'_>>
    ensures { option_map begun_of result ≡ begin_slash rest.now }
{
    match rest.split_first() {
        Some((b'/', tail)) => Some(good(Kind::Gap, after_line(tail))),
        Some((b'*', tail)) => match after_block(tail) {
            Some(rest) => Some(good(Kind::Gap, rest)),
            None => None,
        },
        _ => Some(stray(rest)),
    }
}

fn good(kind: Kind, rest: &[u8]) -> Begun<'_>
    ensures { begun_of result ≡ record { kind = kind; rest = rest.now; fault = None } }
{
    Begun {
        kind,
        rest,
        fault: None,
    }
}

fn stray(rest: &[u8]) -> Begun<'_>
    ensures { begun_of result ≡ record { kind = Kind.Gap; rest = rest.now; fault = Some (Fault.BadByte, 0) } }
{
    Begun {
        kind: Kind::Gap,
        rest,
        fault: Some((Fault::BadByte, 0)),
    }
}

/// A word, or the `f'` of a template.
fn word(first: u8, rest: &[u8]) -> Begun<'_>
    ensures { Some (begun_of result) ≡ begin_word first rest.now }
{
    match rest.split_first() {
        Some((b'\'', tail)) if first == b'f' => good(Kind::TemplateStart, tail),
        _ => good(Kind::Word, after_word(rest)),
    }
}

fn number(first: u8, rest: &[u8]) -> Begun<'_>
    ensures { Some (begun_of result) ≡ begin_number first rest.now }
{
    let (large, rest) = number_end(first, rest);
    Begun {
        kind: Kind::Number,
        rest,
        fault: if large {
            Some((Fault::TooLarge, 0))
        } else {
            None
        },
    }
}

/// After a text's first quote.
fn text(rest: &[u8]) -> Option<Begun<'_>>
    ensures { option_map begun_of result ≡ begin_text (run_from OfText 1 None rest.now) }
{
    let run = run_end(Quotes::OfText, 1, rest)?;
    let (_, rest) = run.rest.split_first()?;
    Some(Begun {
        kind: Kind::Text,
        rest,
        fault: bad_byte(run.bad),
    })
}

/// The characters of a template.
fn characters(text: &[u8]) -> Option<Begun<'_>>
    ensures { option_map begun_of result ≡ begin_characters (run_from OfTemplate 0 None text.now) }
{
    let run = run_end(Quotes::OfTemplate, 0, text)?;
    Some(Begun {
        kind: Kind::Characters,
        rest: run.rest,
        fault: bad_byte(run.bad),
    })
}

/// What follows a mark's second byte.
fn after_second(first: u8, rest: &[u8]) -> Option<&[u8]>
    ensures { option_map (λ r. r.now) result ≡ past_pair first rest.now }
{
    let (c, tail) = rest.split_first()?;
    if are_mark(first, *c) {
        Some(tail)
    } else {
        None
    }
}

fn code(hole: bool, first: u8, rest: &[u8]) -> Option<Begun<'_>>
    ensures { option_map begun_of result ≡ begin_code hole (class first) first rest.now }
{
    match class_at(first) {
        Class::Space | Class::LineFeed => Some(good(Kind::Gap, rest)),
        Class::Letter => Some(word(first, rest)),
        Class::Digit => Some(number(first, rest)),
        Class::Quote => text(rest),
        Class::Slash => slash(rest),
        Class::OpensBrace => Some(good(Kind::OpenBrace, rest)),
        Class::ClosesBrace if hole => Some(good(Kind::HoleEnd, rest)),
        Class::ClosesBrace => Some(good(Kind::CloseBrace, rest)),
        Class::Sign => match after_second(first, rest) {
            Some(tail) => Some(good(Kind::Mark, tail)),
            None => Some(good(Kind::Mark, rest)),
        },
        Class::Half => match after_second(first, rest) {
            Some(tail) => Some(good(Kind::Mark, tail)),
            None => Some(stray(rest)),
        },
        Class::Other => Some(stray(rest)),
    }
}

/// The piece at the front. None where the text is empty, or what begins it has no end.
pub fn begin(spot: Spot, text: &[u8]) -> Option<Begun<'_>>
    ensures { option_map begun_of result ≡ begin spot text.now }
{
    let (c, rest) = text.split_first()?;
    match spot {
        Spot::Code => code(false, *c, rest),
        Spot::Hole => code(true, *c, rest),
        Spot::Template => match *c {
            b'\'' => Some(good(Kind::TemplateEnd, rest)),
            b'{' => Some(good(Kind::HoleStart, rest)),
            _ => characters(text),
        },
    }
}
