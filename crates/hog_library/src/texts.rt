//! What the natives find in texts and make of them.

ghost use Rattle.std.specs.Prelude.{◌≡◌, ◌<◌, ◌≤◌, ◌+◌, ◌++◌, ◌∷◌, [], length, map, IfNone, IfSome, IfOk, OnOk, string_bytes, string_len};
ghost use Rattle.std.specs.Char.{to_ascii_uppercase, to_ascii_lowercase};
ghost use Rattle.hog_library.specs.Texts.{is_blank, count_characters, trimmed_front, trimmed_back, trimmed, begins_with, pieces, replaced, is_allowed, whole_number, number_spelled, number_in};
ghost use Rattle.hog_library.specs.Cells.{cost_of_item, cost_of_items};

use hog_value::{HogText, Stop};
use std::alloc::Global;
use std::convert::AsStr;

/// A whole number of 64 bits below 0 has at most this size.
const MOST_NEGATIVE: u64 = 1 << 63;

/// How many characters a text has. Takes no memory.
#[tactic(auto, unfolding(crate::specs::Texts::count_characters))]
pub(crate) fn count_characters(text: &HogText) -> usize
    ensures { result ≡ count_characters text.now }
{
    text.bytes()
        .iter()
        .filter(|b| **b < 128 || **b >= 192)
        .count()
}

/// Adds a piece to a text of at most `units` bytes.
pub(crate) fn put(text: &mut String, piece: &str, units: u32) -> Result<(), Stop>
    requires { length (string_bytes text.old) ≤ units }
    ensures ok { OnOk result (string_bytes text.new ≡ string_bytes text.old ++ piece.now) }
    ensures fits { length (string_bytes text.new) ≤ units }
    ensures spent { result ≡ Err Stop.UnitsSpent
        → units < length (string_bytes text.old ++ piece.now) }
{
    if piece.len() > units as usize - text.len() {
        return Err(Stop::UnitsSpent);
    }
    text.push_str(piece)?;
    Ok(())
}

/// A copy of a text, of at most `units` bytes.
pub(crate) fn copied(alloc: Global, text: &str, units: u32) -> Result<String, Stop>
    ensures ok { IfOk result (λ made. string_bytes made ≡ text.now) }
    ensures spent { result ≡ Err Stop.UnitsSpent → units < length text.now }
{
    if text.len() > units as usize {
        return Err(Stop::UnitsSpent);
    }
    Ok(String::from_str(alloc, text)?)
}

/// The text with ASCII letters in upper case, of at most `units` bytes.
pub(crate) fn upper(alloc: Global, text: &HogText, units: u32) -> Result<HogText, Stop>
    ensures ok { IfOk result (λ made. made ≡ map to_ascii_uppercase text.now) }
    ensures spent { result ≡ Err Stop.UnitsSpent
        → units < length (map to_ascii_uppercase text.now) }
{
    let mut made = copied(alloc, text.as_str(), units)?;
    made.make_ascii_uppercase();
    Ok(HogText::from_string(made))
}

/// The text with ASCII letters in lower case, of at most `units` bytes.
pub(crate) fn lower(alloc: Global, text: &HogText, units: u32) -> Result<HogText, Stop>
    ensures ok { IfOk result (λ made. made ≡ map to_ascii_lowercase text.now) }
    ensures spent { result ≡ Err Stop.UnitsSpent
        → units < length (map to_ascii_lowercase text.now) }
{
    let mut made = copied(alloc, text.as_str(), units)?;
    made.make_ascii_lowercase();
    Ok(HogText::from_string(made))
}

/// Whether a byte is a space, a tab, a line feed or a carriage return.
fn is_blank(b: u8) -> bool
    ensures { result ≡ is_blank b }
{
    b == b' ' || b == b'\t' || b == b'\n' || b == b'\r'
}

/// The text without blanks in front.
fn trimmed_front(text: &str) -> &str
    ensures { result.now ≡ trimmed_front text.now }
{
    let bytes = text.as_bytes();
    let mut start = 0;
    while start < bytes.len() && is_blank(bytes[start]) {
        start += 1;
    }
    &text[start..]
}

/// The text without blanks behind.
fn trimmed_back(text: &str) -> &str
    ensures { result.now ≡ trimmed_back text.now }
{
    let bytes = text.as_bytes();
    let mut end = bytes.len();
    while end > 0 && is_blank(bytes[end - 1]) {
        end -= 1;
    }
    &text[..end]
}

/// The text without blanks at both ends, of at most `units` bytes.
#[tactic(auto, unfolding(crate::specs::Texts::trimmed))]
pub(crate) fn trimmed(alloc: Global, text: &HogText, units: u32) -> Result<HogText, Stop>
    ensures ok { IfOk result (λ made. made ≡ trimmed text.now) }
    ensures spent { result ≡ Err Stop.UnitsSpent → units < length (trimmed text.now) }
{
    let inner = trimmed_back(trimmed_front(text.as_str()));
    Ok(HogText::from_string(copied(alloc, inner, units)?))
}

/// Whether a text begins with another. Takes no memory.
#[tactic(auto, unfolding(crate::specs::Texts::begins_with))]
pub(crate) fn begins_with(text: &[u8], start: &[u8]) -> bool
    ensures { result ≡ begins_with text.now start.now }
{
    text.starts_with(start)
}

/// The piece of a text before the first separator, and what is behind it, where the separator is in the text.
/// Takes no memory.
fn cut<'a>(text: &'a str, separator: &str) -> Option<(&'a str, &'a str)>
    ensures none { IfNone result (pieces separator.now text.entry.now ≡ text.entry.now ∷ []) }
    ensures some { IfSome result (λ parts. pieces separator.now text.entry.now
        ≡ parts.0.now ∷ pieces separator.now parts.1.now) }
    ensures shorter { IfSome result (λ parts. length parts.1.now < length text.entry.now) }
{
    if separator.is_empty() {
        return None;
    }
    text.split_once(separator)
}

/// The text with `to` in place of each occurrence of `from`, of at most `units` bytes.
#[tactic(auto, unfolding(crate::specs::Texts::replaced))]
pub(crate) fn replaced(
    alloc: Global,
    text: &HogText,
    from: &HogText,
    to: &HogText,
    units: u32,
) -> Result<HogText, Stop>
    ensures ok { IfOk result (λ made. made ≡ replaced text.now from.now to.now) }
    ensures spent { result ≡ Err Stop.UnitsSpent
        → units < length (replaced text.now from.now to.now) }
{
    let mut made = String::new(alloc);
    let mut rest = text.as_str();
    while let Some((piece, behind)) = cut(rest, from.as_str()) {
        put(&mut made, piece, units)?;
        put(&mut made, to.as_str(), units)?;
        rest = behind;
    }
    put(&mut made, rest, units)?;
    Ok(HogText::from_string(made))
}

/// Adds a copy of a text to texts that are to be the items of a new array. `left` is how many units may be spent on
/// it; the answer is how many are left then.
pub(crate) fn add_item(texts: &mut Vec<HogText>, text: &str, left: u32) -> Result<u32, Stop>
    ensures ok { OnOk result (texts.new.items ≡ texts.old.items ++ text.now ∷ []) }
    ensures left { IfOk result (λ rest. rest + cost_of_item text.now ≡ left) }
    ensures spent { result ≡ Err Stop.UnitsSpent → left < cost_of_item text.now }
{
    let cost = text.len().saturating_add(16);
    if cost > left as usize {
        return Err(Stop::UnitsSpent);
    }
    let copy = String::from_str(*texts.allocator(), text)?;
    texts.push(HogText::from_string(copy))?;
    Ok(left - cost as u32)
}

/// The pieces of a text between the separators in it, where new texts and an array of them cost at most `units`.
pub(crate) fn pieces(
    alloc: Global,
    separator: &HogText,
    text: &HogText,
    units: u32,
) -> Result<Vec<HogText>, Stop>
    ensures ok { IfOk result (λ made. made.items ≡ pieces separator.now text.now) }
    ensures spent { result ≡ Err Stop.UnitsSpent
        → units < cost_of_items (pieces separator.now text.now) }
{
    let mut made = Vec::new(alloc);
    let mut left = units;
    let mut rest = text.as_str();
    while let Some((piece, behind)) = cut(rest, separator.as_str()) {
        left = add_item(&mut made, piece, left)?;
        rest = behind;
    }
    add_item(&mut made, rest, left)?;
    Ok(made)
}

/// Whether a request may be made of a URL. Takes no memory.
#[tactic(auto, unfolding(crate::specs::Texts::is_allowed))]
pub(crate) fn is_allowed(url: &HogText) -> bool
    ensures { result ≡ is_allowed url.now }
{
    let bytes = url.bytes();
    begins_with(bytes, b"https://") && bytes.len() > 8 && bytes[8] != b'/'
}

/// The whole number with this size and sign.
fn whole_number(is_negative: bool, n: u64) -> Option<i64>
    ensures { result ≡ whole_number is_negative n }
{
    if !is_negative {
        return i64::try_from(n).ok();
    }
    if n > MOST_NEGATIVE {
        return None;
    }
    if n == MOST_NEGATIVE {
        return Some(i64::MIN);
    }
    Some(-(n as i64))
}

/// The whole number that 1 to 19 digits spell.
fn number_spelled(is_negative: bool, digits: &[u8]) -> Option<i64>
    ensures { result ≡ number_spelled is_negative digits.now }
{
    if digits.is_empty() || digits.len() > 19 {
        return None;
    }
    let mut n: u64 = 0;
    for digit in digits {
        if !digit.is_ascii_digit() {
            return None;
        }
        n = 10 * n + u64::from(*digit - b'0');
    }
    whole_number(is_negative, n)
}

/// The whole number that a text spells: 1 to 19 digits, with or without a `-` before them. Takes no memory.
#[tactic(auto, unfolding(crate::specs::Texts::number_in))]
pub(crate) fn number_in(text: &HogText) -> Option<i64>
    ensures { result ≡ number_in text.now }
{
    let bytes = text.bytes();
    if !bytes.is_empty() && bytes[0] == b'-' {
        number_spelled(true, &bytes[1..])
    } else {
        number_spelled(false, bytes)
    }
}
