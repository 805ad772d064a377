//! What stands between quotes.

ghost use Rattle.std.specs.Prelude.{◌≡◌, ◌<◌, ◌∷◌, [], OnOk, MatchOption, encode_utf8};
ghost use Rattle.hog_grammar.specs.Pieces.{Plain, inside};
ghost use Rattle.hog_printer.specs.Print.{quoted, written};
ghost use Rattle.hog_printer.specs.View.{AddsText, quotes_of};

use std::alloc::AllocError;

/// Whose quotes.
#[derive(Clone, Copy, Debug, PartialEq, Eq)]
pub enum Quotes {
    Text,
    Template,
}

/// How a character is written that has a backslash before it; None for one that stands for itself.
fn escape(quotes: Quotes, c: char) -> Option<&'static str>
    ensures { MatchOption result
        (written (quotes_of quotes) c ≡ Plain c)
        (λ s. (c < 128) × (s.now ≡ inside (written (quotes_of quotes) c ∷ []))) }
{
    match c {
        '\n' => Some("\\n"),
        '\r' => Some("\\r"),
        '\t' => Some("\\t"),
        '\0' => Some("\\0"),
        '\\' => Some("\\\\"),
        '\'' => Some("\\'"),
        '{' => match quotes {
            Quotes::Template => Some("\\{"),
            Quotes::Text => None,
        },
        _ => None,
    }
}

/// AddsText a character as it stands between quotes.
#[tactic(auto, using(crate::proofs::Chars::low_char, crate::proofs::Chars::plain_char))]
fn put(out: &mut String, quotes: Quotes, c: char) -> Result<(), AllocError>
    ensures { OnOk result (AddsText out.old out.new (quoted (quotes_of quotes) (encode_utf8 c))) }
{
    match escape(quotes, c) {
        Some(spelling) => Ok(out.push_str(spelling)?),
        None => Ok(out.push(c)?),
    }
}

/// AddsText a text as it stands between quotes.
pub fn quoted(out: &mut String, quotes: Quotes, text: &str) -> Result<(), AllocError>
    ensures { OnOk result (AddsText out.old out.new (quoted (quotes_of quotes) text.now)) }
{
    for c in text.chars() {
        put(out, quotes, c)?;
    }
    Ok(())
}
