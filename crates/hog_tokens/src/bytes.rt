//! Kinds of bytes.

ghost use Rattle.std.specs.Prelude.{◌≡◌};
ghost use Rattle.hog_grammar.specs.Bytes.{class, is_pair, is_text_escape};
ghost use Rattle.hog_grammar.specs.Pieces.{is_end, is_escape};
ghost use Rattle.hog_tokens.specs.View.{class_of, quotes_of};

/// What a byte may begin.
#[derive(Clone, Copy, Debug, PartialEq, Eq)]
pub enum Class {
    Space,
    LineFeed,
    Letter,
    Digit,
    Quote,
    Slash,
    OpensBrace,
    ClosesBrace,
    /// A mark by itself.
    Sign,
    /// A mark only with another byte.
    Half,
    Other,
}

/// Whose quotes characters stand in.
#[derive(Clone, Copy, Debug, PartialEq, Eq)]
pub enum Quotes {
    OfText,
    OfTemplate,
}

#[tactic(auto, unfolding(hog_grammar::specs::Bytes::class))]
pub fn class_at(c: u8) -> Class
    ensures { class_of result ≡ class c }
{
    match c {
        b' ' | b'\t' | b'\r' => Class::Space,
        b'\n' => Class::LineFeed,
        b'a'..=b'z' | b'A'..=b'Z' | b'_' | b'$' => Class::Letter,
        b'0'..=b'9' => Class::Digit,
        b'\'' => Class::Quote,
        b'/' => Class::Slash,
        b'{' => Class::OpensBrace,
        b'}' => Class::ClosesBrace,
        b'(' | b')' | b'[' | b']' | b',' | b';' | b':' | b'.' => Class::Sign,
        b'+' | b'-' | b'*' | b'<' | b'>' => Class::Sign,
        b'?' | b'=' | b'!' => Class::Half,
        _ => Class::Other,
    }
}

/// Whether two bytes are a mark.
#[tactic(auto, unfolding(hog_grammar::specs::Bytes::is_pair))]
pub fn are_mark(c: u8, d: u8) -> bool
    ensures { result ≡ is_pair c d }
{
    match c {
        b'?' => d == b'.' || d == b'?',
        b'-' => d == b'>',
        b':' | b'=' | b'!' | b'<' | b'>' => d == b'=',
        _ => false,
    }
}

/// Whether characters end before this byte.
pub fn ends(quotes: Quotes, c: u8) -> bool
    ensures { result ≡ is_end (quotes_of quotes) c }
{
    match quotes {
        Quotes::OfText => c == b'\'',
        Quotes::OfTemplate => c == b'\'' || c == b'{',
    }
}

#[tactic(auto, unfolding(hog_grammar::specs::Bytes::is_text_escape))]
fn escapes_in_text(c: u8) -> bool
    ensures { result ≡ is_text_escape c }
{
    c == b'\\' || c == b'\'' || c == b'n' || c == b'r' || c == b't' || c == b'0'
}

/// Whether this byte may follow a backslash.
pub fn escapes(quotes: Quotes, c: u8) -> bool
    ensures { result ≡ is_escape (quotes_of quotes) c }
{
    match quotes {
        Quotes::OfText => escapes_in_text(c),
        Quotes::OfTemplate => escapes_in_text(c) || c == b'{',
    }
}
